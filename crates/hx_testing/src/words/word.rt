//! The words of a line.
ghost use Rattle.std.specs.Prelude.{◌<◌};

use hx_units::Nanos;
use std::alloc::Global;
use std::test::Fail;

/// The words of a line that are still to be read, with one space between them.
#[derive(Clone, Copy)]
pub struct Words<'a> {
    rest: &'a str,
}

impl<'a> Words<'a> {
    /// All words of a line.
    pub fn of(line: &'a str) -> Words<'a> {
        Words { rest: line }
    }

    /// The next word; none after the last one.
    pub fn next(&mut self) -> &'a str {
        let (word, others) = self.rest.split_once(' ').unwrap_or((self.rest, ""));
        self.rest = others;
        word
    }

    /// A number.
    pub fn number(&mut self) -> Result<u64, Fail> {
        Ok(self.next().parse::<u64>()?)
    }

    /// A number of shares.
    pub fn shares(&mut self) -> Result<u32, Fail> {
        Ok(self.next().parse::<u32>()?)
    }

    /// A time of the day, in nanoseconds since midnight.
    pub fn time(&mut self) -> Result<Nanos, Fail> {
        Ok(Nanos::of(self.number()?).ok_or("no time of the day")?)
    }

    /// Dollars with four decimals, in units of 1/10,000 dollar.
    pub fn price(&mut self) -> Result<u32, Fail> {
        let (dollars, decimals) = self.next().split_once('.').ok_or("no price")?;
        let units = dollars
            .parse::<u32>()?
            .checked_mul(10_000)
            .ok_or("too much")?;
        Ok(
            units
                .checked_add(decimals.parse::<u32>()?)
                .ok_or("too much")?,
        )
    }

    /// A public reference, or `MEMBER.NUMBER`: a private one.
    pub fn reference(&mut self) -> Result<u64, Fail> {
        let word = self.next();
        let Some((member, number)) = word.split_once('.') else {
            return Ok(word.parse::<u64>()?);
        };
        let member = u64::from(member.parse::<u16>()?);
        let number = u64::from(number.parse::<u32>()?);
        Ok((1 << 63) | (member << 40) | number)
    }

    /// A name, filled with spaces on the right.
    pub fn name<const N: usize>(&mut self) -> [u8; N] {
        padded(self.next())
    }

    /// The first letter of a word.
    pub fn letter(&mut self) -> Result<u8, Fail> {
        Ok(*self.next().as_bytes().first().ok_or("no letter")?)
    }

    /// `buy`, `sell`, `short`, `exempt`; any other word is its first letter.
    pub fn side(&mut self) -> Result<u8, Fail> {
        let mut word = *self;
        match self.next() {
            "buy" => Ok(b'B'),
            "sell" => Ok(b'S'),
            "short" => Ok(b'T'),
            "exempt" => Ok(b'E'),
            _ => word.letter(),
        }
    }

    /// `now`, `market`, `day`, or a number of seconds.
    pub fn life(&mut self) -> Result<u32, Fail> {
        match self.next() {
            "now" => Ok(0),
            "market" => Ok(99_998),
            "day" => Ok(99_999),
            seconds => Ok(seconds.parse::<u32>()?),
        }
    }

    /// `shown`, `attributed`, `hidden`; any other word is its first letter.
    pub fn display(&mut self) -> Result<u8, Fail> {
        let mut word = *self;
        match self.next() {
            "shown" => Ok(b'Y'),
            "attributed" => Ok(b'A'),
            "hidden" => Ok(b'N'),
            _ => word.letter(),
        }
    }

    /// What is no message of a member: `tick`, `hours CODE`, `halt STOCK REASON`, `resume STOCK REASON`, `break NUMBER`,
    /// or `bytes` in hexadecimal.
    pub fn payload(&mut self, alloc: Global) -> Result<String, Fail> {
        match self.next() {
            "tick" => Ok(hex::encode(alloc, b"K")?),
            "hours" => Ok(hex::encode(alloc, self.next().as_bytes())?),
            "halt" => self.state(alloc, b'H'),
            "resume" => self.state(alloc, b'T'),
            "break" => self.broken(alloc),
            "bytes" => Ok(self.next().to_string(alloc)?),
            _ => Err("no such event".into()),
        }
    }
}

impl Words<'_> {
    // The operator's bytes of a stock's state.
    fn state(&mut self, alloc: Global, state: u8) -> Result<String, Fail> {
        let stock: [u8; 8] = self.name();
        let reason: [u8; 4] = self.name();
        let mut bytes = vec![in alloc; b'H']?;
        bytes.extend_from_slice(&stock)?;
        bytes.push(state)?;
        bytes.extend_from_slice(&reason)?;
        Ok(hex::encode(alloc, &bytes)?)
    }

    // The operator's bytes of a break.
    fn broken(&mut self, alloc: Global) -> Result<String, Fail> {
        let mut bytes = vec![in alloc; b'B']?;
        bytes.extend_from_slice(&self.number()?.to_be_bytes())?;
        Ok(hex::encode(alloc, &bytes)?)
    }
}

// A name, filled with spaces on the right.
fn padded<const N: usize>(name: &str) -> [u8; N] {
    let mut bytes = [b' '; N];
    for (byte, letter) in bytes.iter_mut().zip(name.as_bytes()) {
        *byte = *letter;
    }
    bytes
}
