//! How a reading that stopped, and a name fault that it noted, are reported for a source: by a line
//! alone, or by the limit that is passed.

ghost use Rattle.std.specs.Prelude.{◌≡◌};
ghost use Rattle.parser_combinators.specs.faults.Fault as faults;

use crate::{NameKind, Why};
use cob_base::limit::past;
use cob_base::{Limit, LimitKind};
use cob_tree::{NameFault, ParseError, ParseFault};

/// A limit of reading, passed by one.
pub fn passed_by_one(kind: LimitKind) -> Limit
    ensures { result ≡ faults.passed_by_one kind }
{
    past(kind, false, kind.most() + 1)
}

/// Why nothing is read, with the line at which it stops.
pub fn stop_error(why: Why, line: u32) -> ParseError
    ensures { result ≡ faults.stop_error why line }
{
    match why {
        Why::Syntax => ParseError::Fault(ParseFault::Syntax(line)),
        Why::Terms => ParseError::Limit(passed_by_one(LimitKind::Terms)),
        Why::Parens => ParseError::Limit(passed_by_one(LimitKind::Parens)),
        Why::Nesting => ParseError::Limit(passed_by_one(LimitKind::Nesting)),
    }
}

/// A name fault of this kind, with its line.
pub fn name_fault(kind: NameKind, line: u32) -> NameFault
    ensures { result ≡ faults.name_fault kind line }
{
    match kind {
        NameKind::Duplicate => NameFault::Duplicate(line),
        NameKind::Unknown => NameFault::Unknown(line),
        NameKind::Ambiguous => NameFault::Ambiguous(line),
        NameKind::Level => NameFault::Level(line),
        NameKind::Picture => NameFault::Picture(line),
        NameKind::Redefines => NameFault::Redefines(line),
        NameKind::Value => NameFault::Value(line),
        NameKind::Usage => NameFault::Usage(line),
    }
}
