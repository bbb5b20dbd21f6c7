use crate::fields::{RowError, number};
use os9_base::registers::TimePacket;
use os9_clock::read_time;
use std::alloc::Global;

/// The time at which a command makes things, if its words do not give one.
const START: TimePacket = TimePacket {
    year: 90,
    month: 1,
    day: 1,
    hour: 0,
    minute: 0,
    second: 0,
};

/// The words of a command: the verb, the image and what follows, the time, and the sectors of a
/// cluster.
#[derive(Drop)]
pub(crate) struct Words<'a> {
    pub(crate) plain: Vec<&'a str>,
    pub(crate) now: TimePacket,
    pub(crate) cluster: u16,
}

/// The option whose value is the next word.
#[derive(Clone, Copy, Debug)]
enum Waiting {
    None,
    Time,
    Cluster,
}

impl<'a> Words<'a> {
    /// The words of a text, separated by commas. All of them are valid.
    pub(crate) fn parse(alloc: Global, text: &'a str) -> Result<Words<'a>, RowError> {
        let mut words = Words {
            plain: Vec::new(alloc),
            now: START,
            cluster: 1,
        };
        let mut waiting = Waiting::None;
        for word in text.strip_prefix("vol,").unwrap_or(text).split(',') {
            waiting = words.take(waiting, word)?;
        }
        Ok(words)
    }

    // Takes a word, or the value that the last option needs.
    fn take(&mut self, waiting: Waiting, word: &'a str) -> Result<Waiting, RowError> {
        match waiting {
            Waiting::Time => self.set_time(word)?,
            Waiting::Cluster => self.set_cluster(word)?,
            Waiting::None => match word {
                "--" => {}
                "--time" => return Ok(Waiting::Time),
                "--cluster" => return Ok(Waiting::Cluster),
                _ => self.add(word)?,
            },
        }
        Ok(Waiting::None)
    }

    // Takes a word that is not an option, or an option with its value.
    fn add(&mut self, word: &'a str) -> Result<(), RowError> {
        if let Some(value) = word.strip_prefix("--time=") {
            return self.set_time(value);
        }
        if let Some(value) = word.strip_prefix("--cluster=") {
            return self.set_cluster(value);
        }
        self.plain.push(word)?;
        Ok(())
    }

    fn set_time(&mut self, value: &str) -> Result<(), RowError> {
        self.now = number(read_time(value.as_bytes()))?;
        Ok(())
    }

    fn set_cluster(&mut self, value: &str) -> Result<(), RowError> {
        self.cluster = number(value.parse::<u16>().ok())?;
        Ok(())
    }

    /// The word in a place, or an empty one if there are fewer.
    pub(crate) fn at(&self, place: usize) -> &'a str {
        self.plain.get(place).copied().unwrap_or("")
    }
}
