//! A line of a script that is put to one board.

ghost use Rattle.std.specs.Prelude.{◌≡◌};
ghost use Rattle.script.specs.Laws.{Plainly};
ghost use Rattle.script.specs.Lines.{kind_of, board_of, line_of, parsed, ShortBlock};

use crate::call::Line;
use crate::calls::parse_call;
use crate::mistake::Mistake;
use crate::parts::{Parts, said_by};
use front_ends::kind::Kind;

// Not shared with `records`, which knows the word `time` alone: `records charge` is an unknown argument.
fn parse_kind(part: &[u8]) -> Result<Kind, Mistake>
    ensures { result ≡ kind_of part.now }
{
    match part {
        b"time" => Ok(Kind::Time),
        b"charge" => Ok(Kind::Charge),
        _ => Err(Mistake::BoardKind),
    }
}

fn parse_board(mut parts: Parts) -> Result<Kind, Mistake>
    ensures { result ≡ board_of parts.entry }
{
    let kind = parse_kind(parts.next().ok_or(Mistake::BoardKind)?)?;
    parts.end()?;
    Ok(kind)
}

fn parse_parts(mut parts: Parts) -> Result<Line, Mistake>
    ensures { result ≡ line_of parts.entry }
{
    let Some(name) = parts.next() else {
        return Ok(Line::Blank);
    };
    match name {
        b"board" => Ok(Line::Board(parse_board(parts)?)),
        _ => Ok(Line::Call(parse_call(name, parts)?)),
    }
}

/// What the line says, or why it is not understood. Any bytes may stand in it.
/// A block that is drawn has 64 words at most. Parts with one space between each two say what the parts say.
pub fn parse(line: &[u8]) -> Result<Line, Mistake>
    ensures is { result ≡ parsed line.now }
    ensures block { ShortBlock result }
    ensures plainly { Plainly line.now result }
{
    parse_parts(Parts::of(said_by(line)))
}
