//! A session that takes its commands as text, and the counts of its work.

use anyhow::{Error, bail};
use chip_bench::{Bench, Settings};
use chip_session::respond;
use std::alloc::Global;

/// A session, and the number of steps that it had executed before the last command.
#[derive(Drop)]
pub(crate) struct Session {
    bench: Bench,
    ran_before: u64,
}

impl Session {
    /// Opens a session on a source, at the rate 10 and with a tape of three bytes.
    pub(crate) fn open(alloc: Global, source: &[u8], spacing: u32) -> Result<Session, Error> {
        let settings = Settings::new(alloc, 10, &[0xa5, 0x5a, 0x3c])?.with_spacing(spacing)?;
        Ok(Session {
            bench: Bench::open(alloc, source, settings)?,
            ran_before: 0,
        })
    }

    /// Executes a command, and returns its answer.
    pub(crate) fn carry_out(&mut self, alloc: Global, command: &str) -> Result<String, Error> {
        self.ran_before = self.bench.ran();
        let mut answer = Vec::new(alloc);
        respond(alloc, &mut self.bench, command.as_bytes(), &mut answer)?;
        Ok(String::from_utf8_lossy(alloc, &answer)?)
    }

    /// Returns `yes` if a count is as wanted, and otherwise `no` and the count. The count of `parsed` must
    /// be MOST, the count of `reach` must be at least MOST, and any other count must be from LEAST to MOST.
    /// `wanted` is `LEAST MOST`, or `MOST` alone for a LEAST of 0.
    pub(crate) fn judge(&self, alloc: Global, word: &str, wanted: &str) -> Result<String, Error> {
        let (least, most) = wanted.split_once(" ").unwrap_or(("0", wanted));
        let (least, most) = (least.parse::<u64>()?, most.parse::<u64>()?);
        let count = self.count(word)?;
        let is_so = match word {
            "parsed" => count == most,
            "reach" => count >= most,
            _ => least <= count && count <= most,
        };
        if is_so {
            return Ok(String::from_str(alloc, "yes")?);
        }
        Ok(format!(in alloc; "no {count}")?)
    }

    fn count(&self, word: &str) -> Result<u64, Error> {
        match word {
            "parsed" => Ok(self.bench.work().parsed),
            "encoded" => Ok(self.bench.work().encoded),
            "ran" => Ok(self.bench.ran().saturating_sub(self.ran_before)),
            "reach" => Ok(u64::from(self.bench.reach())),
            _ => bail!("no such count"),
        }
    }
}
