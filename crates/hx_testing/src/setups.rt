//! Setups of which callers know nothing: no contract says what made them, so that proofs do not compute with it.

use hx_members::{Setup, SetupError};
use hx_units::NoMemory;
use std::alloc::{AllocError, Global};
use std::test::Fail;

/// The text of the standard setup.
pub const STANDARD: &[u8] = b"session HX00000001
start open
stock ABCD 5120000000644e435a20502020314e000000004e
stock WXYZ 5120000000644e435a20502020314e000000004e
member 1 FMA1 ALPHA PWALPHA 1000
member 2 FMB2 BRAVO PWBRAVO 1000
member 3 FMC3 CHARLI PWCHARLI 1000
";

/// One of a day that begins closed.
pub const CLOSED: &[u8] = b"session HX00000002
start closed
stock ABCD 5120000000644e435a20502020314e000000004e
member 1 FMA1 ALPHA PWALPHA 1000
member 2 FMB2 BRAVO PWBRAVO 1000
";

/// One by which the first member may send two messages.
pub const TWO_MESSAGES: &[u8] = b"session HX00000003
start open
stock ABCD 5120000000644e435a20502020314e000000004e
member 1 FMA1 ALPHA PWALPHA 2
member 2 FMB2 BRAVO PWBRAVO 1000
";

/// The standard setup.
pub fn standard(alloc: Global) -> Result<Setup, NoMemory> {
    Setup::standard(alloc)
}

/// The setup of a text.
pub fn setup_of(alloc: Global, text: &[u8]) -> Result<Setup, Fail> {
    match Setup::read(alloc, text) {
        Ok(setup) => Ok(setup),
        Err(SetupError::Bad { .. }) => Err(Fail::new("a bad line of a setup")),
        Err(SetupError::NoMemory) => Err(Fail::new("no memory")),
    }
}

/// The text of a day that begins closed, of the largest number of stocks and members: S1 to S1000, and members 1 to
/// 4,095 with the users U1 to U4095 and the password P.
pub fn widest(alloc: Global) -> Result<Vec<u8>, AllocError> {
    let mut text = Vec::from_slice(alloc, b"session HX00000002\nstart closed\n")?;
    for n in 1..=1000 {
        let tail = "5120000000644e435a20502020314e000000004e";
        let line = format!(in alloc; "stock S{n} {tail}\n")?;
        text.extend_from_slice(line.as_bytes())?;
    }
    for n in 1..=4095 {
        let line = format!(in alloc; "member {n} FMA1 U{n} P 4294967295\n")?;
        text.extend_from_slice(line.as_bytes())?;
    }
    Ok(text)
}
