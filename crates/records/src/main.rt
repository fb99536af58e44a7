//! `records [time]`: words of a charge board, or of a time board, from standard input; records to standard output.
#![tactic(auto)]

ghost use Rattle.std.specs.Prelude.{◌≡◌, ◌+◌, ◌*◌, ◌≤◌, length, IfOk};
ghost use Rattle.words.specs.Spaces.{onto};
ghost use Rattle.transcript.specs.Laws.{Faithful, NeverCramped};
ghost use Rattle.transcript.specs.Outcomes.{converted, told};
ghost use Rattle.front_ends.specs.Chosen.{front_of};

use anyhow::anyhow;
use event_records::RECORD;
use front_ends::kind::Kind;
use lift::SPACE;
use reader::run::MOST_WORDS;
use std::io::{Read, Write};
use std::{env, io};
use transcript::convert::convert;
use transcript::outcome::Transcript;
use wording::Summary;

/// A record for each word, and what any one event may ask for: no run lacks room.
const ROOM: usize = RECORD * MOST_WORDS + SPACE;

/// One byte more than a run may have, so that a longer input is seen to be too long.
const MOST_BYTES: usize = 4 * MOST_WORDS + 1;

/// The kind of board that the arguments name, a charge board where there are none.
// Not shared with scripts, which also know the word `charge`: here any word but `time` is an unknown argument.
fn kind_of(rt: &HostRuntime) -> anyhow::Result<Option<Kind>> {
    let mut args = env::args(rt)?.skip(1);
    Ok(match args.next() {
        None => Some(Kind::Charge),
        Some(name) if name.as_str() == "time" && args.next().is_none() => Some(Kind::Time),
        Some(_) => None,
    })
}

/// Converts the bytes for a board of that kind. With the room that this program has, no run is left for want of it.
#[tactic(auto, using(transcript::proofs::Faith::never_cramped))]
fn convert_for(kind: Kind, bytes: &[u8], words: &mut [u32], space: &mut [u8]) -> Transcript
    requires words_len { length words.old ≡ 16384 }
    requires in_bounds { 8 * 16384 + 256 ≤ length space.old }
    ensures is { result ≡ told (converted (front_of kind) bytes.now words.old (length space.old)) }
    ensures after { space.new ≡ onto (converted (front_of kind) bytes.now words.old (length space.old)).bytes space.old }
    ensures faithful { Faithful (front_of kind) bytes.now words.old space.old result space.new }
    ensures roomy { NeverCramped result }
    ensures within { result.bytes ≤ length space.new }
{
    convert(&kind, bytes, words, space)
}

/// Fills the buffer from standard input, and answers how much of it, up to all.
// All that is left of the buffer is offered to each read: a message that is longer than what is offered is cut. The
// library's `read_to_end` offers less, asks for more memory at the limit, and promises no limit here.
fn read_input(rt: &HostRuntime, buffer: &mut [u8]) -> io::Result<usize>
    ensures { IfOk result (λ n. n ≤ length buffer.new) }
{
    let mut stdin = rt.stdin();
    let mut filled = 0;
    // Each turn brings a byte or more, or ends the input.
    for _ in 0..buffer.len() {
        let more = stdin.read(&mut buffer[filled..])?;
        if more == 0 {
            break;
        }
        filled += more;
    }
    Ok(filled)
}

fn run(rt: &HostRuntime, kind: Kind) -> anyhow::Result<()> {
    let heap = rt.alloc();
    let mut input = vec![in heap; 0u8; MOST_BYTES]?;
    let length = read_input(rt, &mut input)?;
    let mut words = vec![in heap; 0u32; MOST_WORDS]?;
    let mut space = vec![in heap; 0u8; ROOM]?;
    let transcript = convert_for(kind, &input[..length], &mut words, &mut space);
    let written = transcript.bytes;
    rt.stdout().write_all(&space[..written])?;
    let summary = Summary(transcript);
    eprintln!(rt; "{kind} board: {summary}")?;
    Ok(())
}

fn main(rt: HostRuntime) -> anyhow::Result<()> {
    match kind_of(&rt)? {
        Some(kind) => run(&rt, kind),
        None => {
            eprintln!(rt; "usage: records [time] < WORDS > RECORDS")?;
            Err(anyhow!("unknown argument"))
        }
    }
}
