//! The program `canon`: it reads a text to the end of its input, and writes the canonical text.
ghost use Rattle.std.specs.Prelude.{◌≡◌, ◌+◌, ◌<◌, ◌⊎◌, [], ◌∷◌, length, map, codes, Result, OnOk, OnErr, IfOk};
ghost use Rattle.std.specs.Prelude.{IfSome, IsErrOf};
ghost use Rattle.std.specs.String.{string_bytes};
ghost use Rattle.std.specs.Str.{IsUtf8};
ghost use Rattle.std.specs.Io.KnownBytes.{Consumes, IsAtEnd, Keeps, Appends};
ghost use Rattle.miniserde_program.specs.Counts.{inner_of, failures, flushes};
ghost use Rattle.miniserde_program.specs.Runs.{IsAnswer, HasNoAnswer, IsAnswerOfUnique, HasNoAnswerOfUnique};
ghost use Rattle.miniserde_program.specs.Runs.{fault_of, read_faults, write_faults, IfRead};
ghost use Rattle.miniserde_program.specs.Runs.{AppendsAnswerOfUnique, AppendsPartOfAnswerOfUnique};
ghost use Rattle.miniserde_program.specs.Runs.{IfSilent, AppendsPart, AppendsAnswer, AppendsPartOfAnswer, status_of, line_of};
ghost use Rattle.miniserde_program.specs.Runs.{RunEffects, streams};
ghost use Rattle.miniserde_program.specs.declared.canon.Fault.{Fault};

mod count;
mod counted;

pub use counted::Counted;
use miniserde_canonical::{canonical, canonical_unique};
use miniserde_model::error::Error;
use std::alloc::Global;
use std::io::{Read, Write};

/// Why a run of the program `canon` failed.
#[derive(Clone, Copy, Debug, PartialEq, Eq)]
pub enum Fault {
    /// The input is not JSON in UTF-8, or, for `run_unique`, an object in it has a duplicate name.
    Invalid,
    /// An allocation failed, or a length overflowed.
    Memory,
    /// A read failed.
    Read,
    /// A write or a flush failed, or a write took no byte.
    Write,
}

impl From<Error> for Fault {
    ghost from_gives = { λ e f. f ≡ fault_of e };

    fn from(error: Error) -> Fault {
        match error {
            Error::Invalid => Fault::Invalid,
            Error::Memory => Fault::Memory,
        }
    }
}

/// Reads a text from `r` to its end, writes its canonical text to `w`, and flushes `w` once.
/// Returns the first fault, if there is one; a call that failed is not made again.
pub fn run<R: Read, W: Write>(
    alloc: Global,
    r: &mut Counted<R>,
    w: &mut Counted<W>,
) -> Result<(), Fault>
    // Bytes are told of streams with a model. At `Ok` the canonical text alone was written, and flushed once.
    ensures ok { OnOk result (IfSome (R.remaining (inner_of r.old))
        (AppendsAnswer (W.contents (inner_of w.old)) (W.contents (inner_of w.new)))) }
    ensures flushed { OnOk result (flushes w.new ≡ flushes w.old + 1) }

    // The reader was read to its end, unless the result is `Read` or `Memory`. The failures are counted.
    ensures read { IfRead result (IsAtEnd (R.remaining (inner_of r.new))) }
    ensures read_failures { failures r.new ≡ failures r.old + read_faults result }
    ensures write_failures { failures w.new ≡ failures w.old + write_faults result }

    // These say what `Invalid` means, and what was written before each error.
    ensures invalid { IsErrOf result Fault.Invalid → IfSome (R.remaining (inner_of r.old)) HasNoAnswer }
    ensures silent { IfSilent result (Keeps (W.contents (inner_of w.old)) (W.contents (inner_of w.new))) }
    ensures part { IsErrOf result Fault.Write → IfSome (R.remaining (inner_of r.old))
        (AppendsPartOfAnswer (W.contents (inner_of w.old)) (W.contents (inner_of w.new))) }
    ensures all_written { IsErrOf result Fault.Write → flushes w.old < flushes w.new → IfSome (R.remaining (inner_of r.old))
        (AppendsAnswer (W.contents (inner_of w.old)) (W.contents (inner_of w.new))) }
{
    let bytes = read_all(alloc, r)?;
    let text = canonical_of_bytes(alloc, bytes.as_slice())?;
    write_out(text, w)
}

/// Reads a text from `r` to its end, writes its canonical text to `w`, and flushes `w` once.
/// Returns the first fault, if there is one; a call that failed is not made again. A duplicate name
/// in an object is the fault `Invalid`.
pub fn run_unique<R: Read, W: Write>(
    alloc: Global,
    r: &mut Counted<R>,
    w: &mut Counted<W>,
) -> Result<(), Fault>
    // Bytes are told of streams with a model. At `Ok` the canonical text alone was written, and flushed once.
    ensures ok { OnOk result (IfSome (R.remaining (inner_of r.old))
        (AppendsAnswerOfUnique (W.contents (inner_of w.old)) (W.contents (inner_of w.new)))) }
    ensures flushed { OnOk result (flushes w.new ≡ flushes w.old + 1) }

    // The reader was read to its end, unless the result is `Read` or `Memory`. The failures are counted.
    ensures read { IfRead result (IsAtEnd (R.remaining (inner_of r.new))) }
    ensures read_failures { failures r.new ≡ failures r.old + read_faults result }
    ensures write_failures { failures w.new ≡ failures w.old + write_faults result }

    // These say what `Invalid` means, and what was written before each error.
    ensures invalid { IsErrOf result Fault.Invalid → IfSome (R.remaining (inner_of r.old)) HasNoAnswerOfUnique }
    ensures silent { IfSilent result (Keeps (W.contents (inner_of w.old)) (W.contents (inner_of w.new))) }
    ensures part { IsErrOf result Fault.Write → IfSome (R.remaining (inner_of r.old))
        (AppendsPartOfAnswerOfUnique (W.contents (inner_of w.old)) (W.contents (inner_of w.new))) }
    ensures all_written { IsErrOf result Fault.Write → flushes w.old < flushes w.new → IfSome (R.remaining (inner_of r.old))
        (AppendsAnswerOfUnique (W.contents (inner_of w.old)) (W.contents (inner_of w.new))) }
{
    let bytes = read_all(alloc, r)?;
    let text = canonical_unique_of_bytes(alloc, bytes.as_slice())?;
    write_out(text, w)
}

/// Runs the program by `args`, the words after the program's name: `run` without any, and `run_unique` for `--unique`
/// alone. Returns the exit status, and the line for standard error, which is empty after success. For other arguments
/// it calls neither, and returns 2 and the usage.
pub fn program<R: Read, W: Write>(
    alloc: Global,
    args: &[String],
    r: &mut Counted<R>,
    w: &mut Counted<W>,
) -> (u8, &'static str)
    ensures ran { length args.now ≡ 0
        → (answer : Result (Unit {0}) Fault)
        × (result.0 ≡ status_of answer) × (result.1.now ≡ line_of answer)
        × RunEffects IsAnswer HasNoAnswer answer (streams R.remaining W.contents r.old w.old)
        (streams R.remaining W.contents r.new w.new) }
    ensures unique { map string_bytes args.now ≡ codes "--unique" ∷ []
        → (answer : Result (Unit {0}) Fault)
        × (result.0 ≡ status_of answer) × (result.1.now ≡ line_of answer)
        × RunEffects IsAnswerOfUnique HasNoAnswerOfUnique answer (streams R.remaining W.contents r.old w.old)
        (streams R.remaining W.contents r.new w.new) }
    ensures usage { 0 < length args.now → (map string_bytes args.now ≡ codes "--unique" ∷ [] → ⊥)
        → (result.0 ≡ 2) × (result.1.now ≡ codes "usage: canon [--unique]") × (r.new ≡ r.old) × (w.new ≡ w.old) }
{
    match args {
        [] => status_and_line(run(alloc, r, w)),
        [word] if word.as_str() == "--unique" => status_and_line(run_unique(alloc, r, w)),
        _ => (2, "usage: canon [--unique]"),
    }
}

// Returns the exit status for the result of a run of the program, and the line for standard error, which is empty
// after success.
fn status_and_line(answer: Result<(), Fault>) -> (u8, &'static str)
    ensures status { result.0 ≡ status_of answer }
    ensures line { result.1.now ≡ line_of answer }
{
    match answer {
        Ok(()) => (0, ""),
        Err(Fault::Invalid) => (1, "canon: invalid text"),
        Err(Fault::Memory) => (3, "canon: out of memory"),
        Err(Fault::Read) => (4, "canon: read failed"),
        Err(Fault::Write) => (5, "canon: write failed"),
    }
}

/// Returns all bytes that the reader has left. Returns `Read` if a read fails, and `Memory` if an allocation fails.
fn read_all<R: Read>(alloc: Global, r: &mut Counted<R>) -> Result<Vec<u8>, Fault>
    ensures given { IfOk result (λ v.
        Consumes (R.remaining (inner_of r.old)) (R.remaining (inner_of r.new)) v.items) }
    ensures end { OnOk result (IsAtEnd (R.remaining (inner_of r.new))) }
    ensures failures { failures r.new ≡ failures r.old + read_faults result }
    ensures only { OnErr result (IsErrOf result Fault.Read ⊎ IsErrOf result Fault.Memory) }
{
    let mut bytes = Vec::new(alloc);
    let mut chunk = [0u8; 65536];
    loop {
        match r.read(&mut chunk) {
            Ok(0) => return Ok(bytes),
            Ok(n) => {
                if bytes.extend_from_slice(&chunk[..n]).is_err() {
                    return Err(Fault::Memory);
                }
            }
            Err(_) => return Err(Fault::Read),
        }
    }
}

// Returns the canonical text of the bytes. Returns `Invalid` if they are not JSON in UTF-8, and `Memory` if an
// allocation fails.
fn canonical_of_bytes(alloc: Global, bytes: &[u8]) -> Result<String, Fault>
    ensures ok { IfOk result (λ s. IsAnswer bytes.now (string_bytes s)) }
    ensures invalid { IsErrOf result Fault.Invalid → HasNoAnswer bytes.now }
    ensures only { OnErr result (IsErrOf result Fault.Invalid ⊎ IsErrOf result Fault.Memory) }
{
    let text = text_of(bytes)?;
    Ok(canonical(alloc, text)?)
}

// Returns the canonical text of the bytes. Returns `Invalid` if they are not JSON in UTF-8 or an object has a
// duplicate name, and `Memory` if an allocation fails.
fn canonical_unique_of_bytes(alloc: Global, bytes: &[u8]) -> Result<String, Fault>
    ensures ok { IfOk result (λ s. IsAnswerOfUnique bytes.now (string_bytes s)) }
    ensures invalid { IsErrOf result Fault.Invalid → HasNoAnswerOfUnique bytes.now }
    ensures only { OnErr result (IsErrOf result Fault.Invalid ⊎ IsErrOf result Fault.Memory) }
{
    let text = text_of(bytes)?;
    Ok(canonical_unique(alloc, text)?)
}

// Returns the bytes as a text, or `Invalid` if they are not UTF-8.
fn text_of(bytes: &[u8]) -> Result<&str, Fault>
    ensures ok { IfOk result (λ s. (s.now ≡ bytes.now) × IsUtf8 s.now) }
    ensures invalid { OnErr result (IsUtf8 bytes.now → ⊥) }
    ensures only { OnErr result (IsErrOf result Fault.Invalid) }
{
    match std::str::from_utf8(bytes) {
        Ok(text) => Ok(text),
        Err(_) => Err(Fault::Invalid),
    }
}

/// Writes the text to `w`, and flushes `w` once. Returns `Write` if a write or the flush fails, or
/// if a write takes no byte. After a write that failed it does not flush.
fn write_out<W: Write>(text: String, w: &mut Counted<W>) -> Result<(), Fault>
    ensures ok { OnOk result (Appends (W.contents (inner_of w.old)) (W.contents (inner_of w.new)) (string_bytes text)) }
    ensures flushed { OnOk result (flushes w.new ≡ flushes w.old + 1) }
    ensures failures { failures w.new ≡ failures w.old + write_faults result }
    ensures only { OnErr result (IsErrOf result Fault.Write) }
    ensures part { OnErr result
        (AppendsPart (W.contents (inner_of w.old)) (W.contents (inner_of w.new)) (string_bytes text)) }
    ensures all_written { OnErr result (flushes w.old < flushes w.new
        → Appends (W.contents (inner_of w.old)) (W.contents (inner_of w.new)) (string_bytes text)) }
{
    put_all(w, text.as_bytes())?;
    match w.flush() {
        Ok(()) => Ok(()),
        Err(_) => Err(Fault::Write),
    }
}

/// Writes all the bytes. Returns `Write` if a write fails or takes no byte, and does not make that call again.
fn put_all<W: Write>(w: &mut Counted<W>, bytes: &[u8]) -> Result<(), Fault>
    ensures ok { OnOk result
        (Appends (W.contents (inner_of w.old)) (W.contents (inner_of w.new)) bytes.now) }
    ensures failures { failures w.new ≡ failures w.old + write_faults result }
    ensures flushes { flushes w.new ≡ flushes w.old }
    ensures only { OnErr result (IsErrOf result Fault.Write) }
    ensures part { OnErr result
        (AppendsPart (W.contents (inner_of w.old)) (W.contents (inner_of w.new)) bytes.now) }
{
    let mut at = 0;
    while at < bytes.len() {
        match w.write(&bytes[at..]) {
            Ok(0) => return Err(Fault::Write),
            Ok(n) => at += n,
            Err(_) => return Err(Fault::Write),
        }
    }
    Ok(())
}
