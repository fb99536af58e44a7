//! `play [FILE]`: the calls of a script from standard input, put to one board that plays; the answers to standard
//! output. The drawn words go to the file too, as bytes, if one is named.
#![tactic(auto)]

use anyhow::anyhow;
use bank::Bank;
use board::board::Board;
use front_ends::charge::Charge;
use front_ends::kind::Kind;
use front_ends::time::Time;
use script::mistake::Mistake;
use script_text::reply::{Answer, Drawn, Reply};
use std::fs::File;
use std::io::{BufRead, BufReader, BufWriter, Stdin, Stdout, Write};
use std::{env, fs, io};
use words::word::bytes_of;

/// A script, line by line, and where its answers and, if a file is named, the drawn words go.
#[derive(Drop)]
struct Desk {
    script: BufReader<Stdin>,
    line: Vec<u8>,
    number: u64,
    answers: BufWriter<Stdout>,
    words: Option<BufWriter<File>>,
}

impl Desk {
    /// The next line, none if the script has ended.
    fn next(&mut self) -> io::Result<Option<&[u8]>> {
        if !self.script.buffer().contains(&b'\n') {
            // Somebody may wait for the answers before giving the rest of the next line.
            self.answers.flush()?;
        }
        self.line.clear();
        self.number = self.number.saturating_add(1);
        let length = self.script.read_until(b'\n', &mut self.line)?;
        if length == 0 {
            return Ok(None);
        }
        let line = self.line.as_slice();
        Ok(Some(line.strip_suffix(b"\n").unwrap_or(line)))
    }

    fn tell(&mut self, told: Result<Answer, Mistake>) -> io::Result<()> {
        let line = self.number;
        let reply = Reply { line, told };
        writeln!(self.answers, "{reply}")?;
        match &reply.told {
            Ok(Answer::Draw(Ok(drawn))) => self.keep(drawn),
            _ => Ok(()),
        }
    }

    /// Keeps drawn words, high byte first.
    fn keep(&mut self, drawn: &Drawn) -> io::Result<()> {
        let Some(file) = &mut self.words else {
            return Ok(());
        };
        for word in drawn.as_slice() {
            file.write_all(&bytes_of(*word))?;
        }
        Ok(())
    }

    /// The kind of board that the script names, none if it ends before.
    fn find_board(&mut self) -> io::Result<Option<Kind>> {
        // A loop on input has no end of its own, and needs this one to be proved to end.
        for _ in 0..u64::MAX {
            let Some(line) = self.next()? else {
                break;
            };
            match player::open(line) {
                Ok(None) => {}
                Ok(Some(kind)) => return Ok(Some(kind)),
                Err(mistake) => self.tell(Err(mistake))?,
            }
        }
        Ok(None)
    }

    /// Puts the rest of the script to the bank.
    fn put_rest<B: Bank + Drop>(&mut self, mut bank: B) -> io::Result<()> {
        // As above: a loop on input needs an end to be proved to end.
        for _ in 0..u64::MAX {
            let Some(line) = self.next()? else {
                break;
            };
            if let Some(told) = player::take(&mut bank, line) {
                self.tell(told)?;
            }
        }
        Ok(())
    }

    /// What is still held goes out.
    fn close(&mut self) -> io::Result<()> {
        self.answers.flush()?;
        match &mut self.words {
            Some(file) => file.flush(),
            None => Ok(()),
        }
    }
}

/// Plays the script on standard input, and keeps the drawn words in the file, if there is one.
fn play(rt: &HostRuntime, file: Option<File>) -> anyhow::Result<()> {
    let heap = rt.alloc();
    let words = file.map(|file| BufWriter::new(heap, file)).transpose()?;
    let mut desk = Desk {
        script: BufReader::new(heap, rt.stdin())?,
        line: vec![in heap]?,
        number: 0,
        answers: BufWriter::new(heap, rt.stdout())?,
        words,
    };
    // A board of its own for each kind, so that no gate asks at every reading which kind it is.
    match desk.find_board()? {
        Some(Kind::Time) => desk.put_rest(Board::new(Time))?,
        Some(Kind::Charge) => desk.put_rest(Board::new(Charge))?,
        None => {}
    }
    desk.close()?;
    Ok(())
}

fn run(rt: &HostRuntime) -> anyhow::Result<()> {
    let mut args = env::args(rt)?.skip(1);
    let name = args.next();
    if args.next().is_some() {
        return Err(anyhow!("usage: play [FILE] < SCRIPT"));
    }
    let file = name.map(|name| fs::create(rt, name)).transpose()?;
    play(rt, file)
}

fn main(rt: HostRuntime) -> anyhow::Result<()> {
    run(&rt)
}
