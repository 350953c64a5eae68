//! Groups that are read whole.

ghost use Rattle.token_core.specs.Fronted.{KeepsFront};
ghost use Rattle.token_core.specs.fronts.Groups as groups;
ghost use Rattle.token_core.specs.Reads.{Follows, Parsed};

use crate::error::Error;
use crate::parse::Parser;
use crate::parse_stream::ParseStream;
use crate::span::DelimSpan;
use crate::tree::Delimiter;
use std::alloc::Global;

impl<'a> ParseStream<'a> {
    /// Reads by a parser what the group of this delimiter at the front holds, which refusals name so, and answers the group's
    /// spans too. A tree that the parser leaves in the group is left over.
    #[tactic(auto, using(crate::proofs::Suffixes::follows))]
    pub fn read_group<P: Parser + Drop>(
        &mut self,
        alloc: Global,
        delimiter: Delimiter,
        name: &str,
        parser: P,
    ) -> Result<(DelimSpan, P::Output), Error>
        requires { P.can_parse parser }
        ensures reads { Parsed (groups.ReadIn delimiter name.now (P.reads parser) self.old)
            (groups.NotIn delimiter name.now (P.refuses parser) self.old) result self.new }
        ensures within { Follows self.old self.new }
        ensures fronts { KeepsFront (groups.groupings delimiter name.now (P.fronts parser)) self.old result self.new }
    {
        let (span, mut content) = self.open_group(alloc, delimiter, name)?;
        let value = parser.parse(alloc, &mut content)?;
        self.finish(content);
        Ok((span, value))
    }
}
