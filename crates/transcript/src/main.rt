// The transcript program: it makes the engine's calls one by one, as its input says, and prints what each gave. See TRANSCRIPT.md.
#![tactic(auto)]

ghost use Rattle.transcript.specs.Plays.{LineTurns};

mod answering;
mod inner;
mod names;
mod outer;
mod output;
mod penalty;
mod play;
mod reading;
mod starting;
mod table;

use answering::answered;
use output::{Line, alone};
use play::Play;
use reading::{heard, heard_of_sets, next};
use script::command::{Command, Said};
use starting::{opened, start_d_psi, start_inner, start_outer, start_psi};
use std::io;
use std::io::{BufReader, BufWriter, Write};
use table::Table;

// What a line says is done; gives what is printed of it. Each command has its own data, and so an arm of its own.
fn turn(play: &mut Play, table: &mut Table, line: &[u8]) -> Line
    ensures { LineTurns line.now play.old table.old play.new table.new result.items }
{
    if let Some(said) = heard_of_sets(line) {
        return table.turn(&said);
    }
    let Some(said) = heard(line) else {
        return alone(b"bad");
    };
    let Said {
        command,
        first: u,
        second: xi,
    } = said;
    let (next, told) = match command {
        Command::Inner(set) => start_inner(set, u),
        Command::Loop(set) => start_outer(set, u, xi),
        Command::Psi(sizes) => start_psi(sizes, u, xi),
        Command::DPsi(sizes) => start_d_psi(sizes, u, xi),
        Command::Answer(reply) => return answered(play, reply, u.as_slice()),
        Command::Lend(us, xis) => return play.lend(us, xis),
        Command::Show => return play.show(),
    };
    *play = next;
    told
}

// A loop has to end and nothing says that the input does, so it counts its turns, up to a number that no input uses up. What is printed is
// written before more is waited for.
fn main(rt: HostRuntime) -> io::Result<()> {
    let mut input = BufReader::new(rt.alloc(), rt.reader())?;
    let mut out = BufWriter::new(rt.alloc(), io::writer(&rt))?;
    let mut line = Vec::new(rt.alloc());
    let mut play = opened();
    let mut table = Table::new();
    for _ in 0..u64::MAX {
        if !input.buffer().contains(&b'\n') {
            out.flush()?;
        }
        if !next(&mut input, &mut line)? {
            break;
        }
        let told = turn(&mut play, &mut table, line.as_slice());
        out.write_all(told.as_slice())?;
        out.write_all(b"\n")?;
    }
    out.flush()
}
