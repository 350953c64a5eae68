//! The worked example of docs/EXAMPLES.md: the options of a field, in `#[form(min = -1, max = 200, rename("a", "b"))]`.

ghost use Rattle.std.specs.Prelude.{◌<◌, length};
ghost use Rattle.token_core.specs.Reads.{Follows};
ghost use Rattle.syn_attr.specs.attr.Requirements.{path_in};

use std::alloc::{AllocError, Global};
use std::fmt::Write;
use std::process::Abort;
use syn_attr::meta::ParseNestedMeta;
use syn_verbatim::expr::VerbatimExpr;
use token_core::token::Comma;
use token_core::{ByFn, Error, Lit, LitStr, ParseStream, read_all_with};
use token_text::lex;

/// An attribute, as the face names it: `syn_mid::verbatim::Attribute`.
type Attribute = syn_attr::attr::Attribute<VerbatimExpr>;

/// What the attributes of a field say of it.
#[derive(Drop)]
struct Form {
    min: Option<Lit>,
    max: Option<Lit>,
    rename: Option<(LitStr, LitStr)>,
}

/// Reads the attributes of a field, and of those the options in `#[form(..)]`; the others are passed over.
#[tactic(auto, using(token_core::proofs::Suffixes::follows))]
fn parse_form(alloc: Global, input: &mut ParseStream<'_>) -> Result<Form, Error>
    ensures { Follows input.old input.new }
{
    let attrs = Attribute::parse_outer(alloc, input)?;
    let mut form = Form {
        min: None,
        max: None,
        rename: None,
    };
    add_forms(alloc, attrs.as_slice(), &mut form)?;
    Ok(form)
}

#[tactic(auto, using(crate::proofs::Idents::idents))]
fn add_forms(alloc: Global, attrs: &[Attribute], form: &mut Form) -> Result<(), Error> {
    for attr in attrs {
        if attr.path().is_ident("form") {
            add_options(alloc, attr, form)?;
        }
    }
    Ok(())
}

#[tactic(auto, using(token_core::proofs::Suffixes::follows))]
fn add_options(alloc: Global, attr: &Attribute, form: &mut Form) -> Result<(), Error>
    requires { 0 < length (path_in attr.now.meta).segments.0 }
{
    let logic = |alloc: Global, meta: &mut ParseNestedMeta<'_>| -> Result<(), Error>
        requires { 0 < length meta.now.path.segments.0 }
        ensures { Follows meta.old.input meta.new.input }
    { parse_option(alloc, meta, form) };
    attr.parse_nested_meta(alloc, logic)
}

/// Reads one option: `min = ..`, `max = ..` or `rename(.., ..)`.
#[tactic(auto, using(token_core::proofs::Suffixes::follows))]
fn parse_option(alloc: Global, meta: &mut ParseNestedMeta<'_>, form: &mut Form) -> Result<(), Error>
    requires { 0 < length meta.now.path.segments.0 }
    ensures { Follows meta.old.input meta.new.input }
{
    if meta.path.is_ident("min") {
        form.min = Some(meta.value(alloc)?.parse::<Lit>(alloc)?);
        Ok(())
    } else if meta.path.is_ident("max") {
        form.max = Some(meta.value(alloc)?.parse::<Lit>(alloc)?);
        Ok(())
    } else if meta.path.is_ident("rename") {
        form.rename = Some(parse_rename(alloc, meta)?);
        Ok(())
    } else {
        Err(meta.error(alloc, "unknown option"))
    }
}

/// Reads two string literals in parentheses, with a comma between them.
#[tactic(auto, using(token_core::proofs::Suffixes::follows))]
fn parse_rename(alloc: Global, meta: &mut ParseNestedMeta<'_>) -> Result<(LitStr, LitStr), Error>
    ensures { Follows meta.old.input meta.new.input }
{
    let (_, mut content) = meta.input.parenthesized(alloc)?;
    let from = content.parse::<LitStr>(alloc)?;
    content.parse::<Comma>(alloc)?;
    let to = content.parse::<LitStr>(alloc)?;
    meta.input.finish(content);
    Ok((from, to))
}

fn show_number(name: &str, number: &Option<Lit>, out: &mut String) -> Result<(), AllocError> {
    match number {
        Some(lit) => write!(out, "{name} {}; ", lit.text())?,
        None => {}
    }
    Ok(())
}

fn show_form(form: &Form, out: &mut String) -> Result<(), AllocError> {
    show_number("min", &form.min, out)?;
    show_number("max", &form.max, out)?;
    match &form.rename {
        Some((from, to)) => write!(out, "rename {} {};", from.text(), to.text())?,
        None => {}
    }
    Ok(())
}

fn show_error(error: &Error, out: &mut String) -> Result<(), AllocError> {
    let (start, end) = (error.start(), error.end());
    write!(
        out,
        "{} {}-{} {}-{}",
        error.text(),
        start.lo,
        start.hi,
        end.lo,
        end.hi
    )?;
    Ok(())
}

fn form_of(alloc: Global, text: &str) -> Result<Form, Error> {
    read_all_with(alloc, ByFn(parse_form), &lex(alloc, text)?)
}

/// The options that stand in a text, or the refusal's text and place.
fn options(alloc: Global, text: &str) -> Result<String, AllocError> {
    let mut out = String::new(alloc);
    match form_of(alloc, text) {
        Ok(form) => show_form(&form, &mut out)?,
        Err(error) => show_error(&error, &mut out)?,
    }
    Ok(out)
}

fn reads(rt: &impl Abort, alloc: Global, text: &str, wanted: &str) {
    match options(alloc, text) {
        Ok(found) => assert_eq!(rt; found.trim(), wanted),
        Err(_) => panic!(rt; "out of memory"),
    }
}

#[test]
fn options_are_read(rt: HostRuntime) {
    let alloc = rt.alloc();
    for (text, wanted) in [
        (
            "#[form(min = -1, max = 200, rename(\"a\", \"b\"))]",
            "min -1; max 200; rename \"a\" \"b\";",
        ),
        (
            "#[x(y)] #[form(max = 2)] #[form(min = 1,)]",
            "min 1; max 2;",
        ),
        ("#[form()] #[x = 1]", ""),
        ("#[form(most = 1)]", "unknown option 7-11 7-11"),
        ("#[form(min = 1, a::max = 2)]", "unknown option 16-17 19-22"),
        (
            "#[form(min)]",
            "unexpected end of input, expected `=` 10-11 10-11",
        ),
        ("#[form(min =, max = 2)]", "expected literal 12-13 12-13"),
        (
            "#[form(rename(\"a\"))]",
            "unexpected end of input, expected `,` 17-18 17-18",
        ),
        (
            "#[form(rename(\"a\", \"b\" c))]",
            "unexpected token 23-24 23-24",
        ),
        ("#[form(min = 1 max = 2)]", "expected `,` 15-18 15-18"),
        (
            "#[form]",
            "expected attribute arguments in parentheses: #[form(...)] 2-6 2-6",
        ),
    ] {
        reads(&rt, alloc, text, wanted);
    }
}
