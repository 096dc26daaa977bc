// A frame in words, on one line. No clause speaks of how a list is printed: the lists' words are for people, and a test shows them.
ghost use Rattle.frames.specs.Text.{frame_text};

use crate::entries::{Accesses, Values};
use crate::frame::Frame;
use protocols::Mode;
use std::fmt;

fn write_accesses<W: fmt::Write>(f: &mut fmt::Formatter<W>, accesses: Accesses<'_>) -> fmt::Result {
    for access in accesses {
        let item = access.item;
        match access.mode {
            Mode::Read => write!(f, " read {item}")?,
            Mode::Write => write!(f, " write {item}")?,
        }
    }
    Ok(())
}

fn write_values<W: fmt::Write>(f: &mut fmt::Formatter<W>, values: Values<'_>) -> fmt::Result {
    for value in values {
        write!(f, " {value}")?;
    }
    Ok(())
}

impl fmt::Display for Frame<'_> {
    ghost output = { frame_text };

    fn fmt<W: fmt::Write>(&self, f: &mut fmt::Formatter<W>) -> fmt::Result {
        match *self {
            Frame::Begin {
                protocol,
                site,
                timestamp,
                interval,
                accesses,
            } => {
                write!(
                    f,
                    "begin protocol {protocol} site {site} timestamp {timestamp} interval {interval}:"
                )?;
                write_accesses(f, accesses)
            }
            Frame::Ask { number, item } => write!(f, "ask {number} for item {item}"),
            Frame::Settle { number } => write!(f, "settle {number}"),
            Frame::Grant { item } => write!(f, "grant item {item}"),
            Frame::Finish { number, values } => {
                write!(f, "finish {number}:")?;
                write_values(f, values)
            }
            Frame::Clear { number } => write!(f, "clear {number}"),
            Frame::Abandon { number } => write!(f, "abandon {number}"),
            Frame::Ring => write!(f, "ring"),
            Frame::Owing => write!(f, "owing"),
        }
    }
}
