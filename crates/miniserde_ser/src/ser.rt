//! The writer of compact JSON text, and the trait of values that write themselves with it.
//!
//! Each call of the writer appends one piece of text: a leaf, a bracket, or what stands before an element or a
//! member. After its first error every call fails, so it never returns a text that was cut short.
ghost use Rattle.std.specs.Prelude.{◌≡◌, ◌++◌, true, false, OnOk, OnErr, IsErrOf};
ghost use Rattle.miniserde_model.specs.Tree.{Tree};
ghost use Rattle.miniserde_model.specs.Compact.{compact};
ghost use Rattle.miniserde_model.specs.InRange.{InRange};
ghost use Rattle.miniserde_model.specs.declared.error.Error.TheVariants.{Memory};
ghost use Rattle.miniserde_ser.specs.Writer.{KeepsNormal};

mod compact;
mod impls;
mod text_value;

pub use compact::{to_string, to_string_and_normal};
use itoa::Buffer;
use miniserde_model::error::{Error, Result};
use miniserde_text::decimal::{has_room, put_digits};
pub use miniserde_text::escape::escape_str;
use miniserde_text::escape::put_name;
use miniserde_text::json::number::NumberText;
use std::alloc::{AllocError, Global};
use std::marker::Model;
use std::{mem, result};
pub use text_value::write_text_value;

/// A leaf, as a writer appends it.
#[derive(Clone, Copy, Debug, Drop)]
pub enum Fragment<'a> {
    Null,
    Bool(bool),
    /// A text, which is written as a string by the escape rule.
    Str(&'a str),
    U64(u64),
    /// An integer of either sign. If it is not negative, it is written without `-`.
    I64(i64),
    /// A number that is kept as its text. The text is written as it is.
    Text(&'a NumberText),
}

/// A JSON text that is being written. A contract sees its bytes, the flag that the next element or member needs no
/// comma, whether a call failed, whether the trees that were written are known to be in normal form, and how many bytes
/// there is room for. The writer does not check that the calls make one whole value. A call that fails leaves the text
/// and its room unchanged.
#[derive(Drop)]
pub struct Writer {
    // The text. If a call failed, it is empty and has no capacity, so a call that finds room need not test `refused`.
    text: String,
    // The text before the call that failed, if a call failed.
    unfinished: String,
    // Whether the next element or member is the first of its container.
    first: bool,
    // Whether a call failed.
    refused: bool,
    // Whether each tree that was written is known to be in normal form. Opening an object in any order ends it, and so
    // does a name that is not known to come after the one before it.
    normal: bool,
}

impl Model for Writer {
    ghost use Rattle.std.specs.Prelude.{◌≡◌, true, string_bytes, string_capacity, if◌then◌else◌};
    ghost use Rattle.miniserde_ser.specs.Writer.{WriterView};

    ghost Value = { WriterView };

    ghost view = { λ w. record {
      text = if w.refused then string_bytes w.unfinished else string_bytes w.text;
      first = w.first;
      refused = w.refused;
      normal = w.normal;
      capacity = if w.refused then string_capacity w.unfinished else string_capacity w.text;
    } };

    ghost invariant = { λ w. w.refused ≡ true → string_capacity w.text ≡ 0 };
}

impl Writer {
    ghost use Rattle.std.specs.Prelude.{◌≡◌, ◌<◌, [], ◌∷◌, ◌++◌, true, false, OnOk, OnErr, IfOk, IsErrOf, IsUtf8};
    ghost use Rattle.std.specs.Prelude.{string_bytes, string_capacity, ◌≤◌, if◌then◌else◌, codes, decimal};
    ghost use Rattle.miniserde_model.specs.Compact.{compact, string_text};
    ghost use Rattle.miniserde_model.specs.declared.error.Error.TheVariants.{Memory};
    ghost use Rattle.miniserde_ser.specs.Writer.{Appends, with_normal, with_refused};
    ghost use Rattle.miniserde_ser.specs.Fragment.{fragment_tree};

    /// Returns a writer of an empty text. Allocates nothing.
    pub fn new(alloc: Global) -> Writer
        ensures { result ≡ record { text = []; first = true; refused = false; normal = false; capacity = 0 } }
    {
        Writer {
            // The contract of `String::new` does not promise a capacity of 0.
            text: String::with_capacity(alloc, 0).unwrap(),
            unfinished: String::with_capacity(alloc, 0).unwrap(),
            first: true,
            refused: false,
            normal: false,
        }
    }

    /// Returns a writer of an empty text that finds out whether the text is canonical (`is_normal`). Allocates nothing.
    pub fn watching(alloc: Global) -> Writer
        ensures { result ≡ record { text = []; first = true; refused = false; normal = true; capacity = 0 } }
    {
        let mut w = Writer::new(alloc);
        w.normal = true;
        w
    }

    /// Whether each tree that was written is known to be in normal form. The compact text of a value is then its
    /// canonical text. It is `false` if the writer was not made by `watching`, an object was opened by `map`, or the names
    /// of a `BTreeMap` are not known to rise.
    #[inline(always)]
    pub fn is_normal(&self) -> bool
        ensures { result ≡ self.now.normal }
    {
        self.normal
    }

    /// Returns the allocator of the text. It has no contract, since a contract can say nothing of a `Global`.
    pub fn alloc(&self) -> Global {
        *self.text.allocator()
    }

    // Returns `AllocError` if an earlier call failed.
    #[inline(always)]
    fn check(&self) -> result::Result<(), AllocError>
        ensures was_running { OnOk result (self.now.refused ≡ false) }
        ensures err { OnErr result (self.now.refused ≡ true) }
    {
        if self.refused {
            return Err(AllocError);
        }
        Ok(())
    }

    // Appends a text as it is. Returns `Memory` if the text cannot grow or an earlier call failed.
    #[inline(always)]
    fn append(&mut self, text: &str) -> Result<()>
        ensures { Appends self.old text.now self.old.first result self.new }
    {
        if !text.is_empty() && self.text.capacity() - self.text.len() >= text.len() {
            self.text.push_str(text).unwrap();
            return Ok(());
        }
        // The writer has refused already. As `refuse` has an effect, the compiler keeps this test apart from the
        // callers'.
        match self.append_growing(text) {
            Ok(()) => Ok(()),
            Err(_) => Err(self.refuse()),
        }
    }

    // Appends a text as `append` does. Kept out of line, since it is seldom called.
    #[inline(never)]
    fn append_growing(&mut self, text: &str) -> Result<()>
        ensures { Appends self.old text.now self.old.first result self.new }
    {
        self.check()?;
        // A `reserve` that fails leaves the capacity unchanged; the contract of `push_str` does not promise that.
        if self.text.reserve(text.len()).is_err() {
            return Err(self.refuse());
        }
        self.text.push_str(text).unwrap();
        Ok(())
    }

    // Appends the decimal digits of a number. If there is room for the longest number, it copies a
    // fixed number of bytes and cuts off what is too much. Returns `Memory` if the text cannot grow
    // or an earlier call failed.
    #[inline(always)]
    fn append_number(&mut self, n: u64) -> Result<()>
        ensures { Appends self.old (decimal n) self.old.first result self.new }
    {
        if !has_room(&self.text) {
            return self.append(Buffer::new().format(n));
        }
        put_digits(n, &mut self.text);
        Ok(())
    }

    // Appends a text as a JSON string. Returns `Memory` if the writer's text cannot grow or an earlier call failed.
    #[inline(always)]
    fn append_quoted(&mut self, text: &str) -> Result<()>
        ensures { Appends self.old (string_text text.now) self.old.first result self.new }
    {
        self.check()?;
        match escape_str(text, &mut self.text) {
            Ok(()) => Ok(()),
            Err(_) => Err(self.refuse()),
        }
    }

    // Appends `mark`, a bracket or a comma. Returns `Memory` if the text cannot grow or an earlier call failed.
    #[inline(always)]
    fn append_mark(&mut self, mark: char) -> Result<()>
        requires ascii { mark < 128 }
        ensures { Appends self.old (mark ∷ []) self.old.first result self.new }
    {
        if self.text.len() < self.text.capacity() {
            self.text.push(mark).unwrap();
            return Ok(());
        }
        match self.append_mark_growing(mark) {
            Ok(()) => Ok(()),
            Err(_) => Err(self.refuse()),
        }
    }

    // Appends a mark as `append_mark` does. Kept out of line, since it is seldom called.
    #[inline(never)]
    fn append_mark_growing(&mut self, mark: char) -> Result<()>
        requires ascii { mark < 128 }
        ensures { Appends self.old (mark ∷ []) self.old.first result self.new }
    {
        self.check()?;
        if self.text.reserve(1).is_err() {
            return Err(self.refuse());
        }
        self.text.push(mark).unwrap();
        Ok(())
    }

    // Appends `mark`, a bracket or a comma. `first` says whether an element or a member right after it is the first of
    // its container. Returns `Memory` if the text cannot grow or an earlier call failed.
    #[inline(always)]
    fn punctuate(&mut self, mark: char, first: bool) -> Result<()>
        requires ascii { mark < 128 }
        ensures { Appends self.old (mark ∷ []) first result self.new }
    {
        self.append_mark(mark)?;
        self.first = first;
        Ok(())
    }

    /// Appends a leaf. Returns `Memory` if the text cannot grow or an earlier call failed.
    #[inline(always)]
    pub fn fragment(&mut self, f: Fragment<'_>) -> Result<()>
        ensures { Appends self.old (compact (fragment_tree f.entry)) self.old.first result self.new }
    {
        match f {
            Fragment::Null => self.append("null"),
            Fragment::Bool(true) => self.append("true"),
            Fragment::Bool(false) => self.append("false"),
            Fragment::Str(s) => self.append_quoted(s),
            Fragment::U64(n) => self.append_number(n),
            Fragment::I64(n) => self.append(Buffer::new().format(n)),
            Fragment::Text(n) => self.append(n.as_str()),
        }
    }

    /// Opens a list: appends `[`. Returns `Memory` if the text cannot grow or an earlier call failed.
    pub fn seq(&mut self) -> Result<()>
        ensures { Appends self.old (codes "[") true result self.new }
    {
        self.punctuate('[', true)
    }

    /// Begins an element of a list: appends a comma unless the element is the first. Returns `Memory` if the text
    /// cannot grow or an earlier call failed.
    #[inline(always)]
    pub fn element(&mut self) -> Result<()>
        ensures { Appends self.old (if self.old.first then [] else codes ",") false result self.new }
    {
        if self.first {
            self.check()?;
            self.first = false;
            return Ok(());
        }
        self.append_mark(',')
    }

    /// Closes a list: appends `]`. Returns `Memory` if the text cannot grow or an earlier call failed.
    pub fn seq_finish(&mut self) -> Result<()>
        ensures { Appends self.old (codes "]") false result self.new }
    {
        self.punctuate(']', false)
    }

    /// Opens an object with names in any order: appends `{`. Returns `Memory` if the text cannot grow or an earlier call
    /// failed.
    pub fn map(&mut self) -> Result<()>
        ensures { Appends (with_normal self.old false) (codes "{") true result self.new }
    {
        self.normal = false;
        self.punctuate('{', true)
    }

    /// Opens an object whose names rise in byte order: appends `{`. The writer does not check the order: the contract of
    /// `Serialize::begin` asks for it. Returns `Memory` if the text cannot grow or an earlier call failed.
    pub fn map_in_order(&mut self) -> Result<()>
        ensures { Appends self.old (codes "{") true result self.new }
    {
        self.punctuate('{', true)
    }

    /// Begins a member of an object: appends a comma unless the member is the first, then its name as a string, and a
    /// colon. Returns `Memory` if the text cannot grow or an earlier call failed.
    pub fn key(&mut self, k: &str) -> Result<()>
        ensures appends { Appends self.old
            ((if self.old.first then [] else codes ",") ++ string_text k.now ++ codes ":") false result self.new }
        ensures utf8 { OnOk result (IsUtf8 k.now) }
    {
        self.key_inline(k)
    }

    /// Begins a member of an object: appends a comma unless the member is the first, then its name as a string, and a
    /// colon. Returns `Memory` if the text cannot grow or an earlier call failed. It does what `key` does, and is
    /// inlined into its caller.
    #[inline(always)]
    pub fn key_inline(&mut self, k: &str) -> Result<()>
        ensures appends { Appends self.old
            ((if self.old.first then [] else codes ",") ++ string_text k.now ++ codes ":") false result self.new }
        ensures utf8 { OnOk result (IsUtf8 k.now) }
    {
        self.check()?;
        match put_name(self.first, k, &mut self.text) {
            Ok(()) => {
                self.first = false;
                Ok(())
            }
            Err(_) => Err(self.refuse()),
        }
    }

    /// Closes an object: appends `}`. Returns `Memory` if the text cannot grow or an earlier call failed.
    pub fn map_finish(&mut self) -> Result<()>
        ensures { Appends self.old (codes "}") false result self.new }
    {
        self.punctuate('}', false)
    }

    /// Makes every later call fail, and returns `Memory`. A value calls it if it fails to allocate memory of its own.
    #[inline(always)]
    pub fn refuse(&mut self) -> Error
        ensures memory { result ≡ Memory }
        ensures err { self.new ≡ with_refused self.old }
    {
        self.set_aside();
        Error::Memory
    }

    // Makes every later call fail: takes the text and its room away. Kept out of line, so that callers see a small call
    // and a result that is known.
    #[cold]
    #[inline(never)]
    fn set_aside(&mut self)
        ensures { self.new ≡ with_refused self.old }
    {
        if !self.refused {
            let empty = String::with_capacity(self.alloc(), 0).unwrap();
            self.unfinished = mem::replace(&mut self.text, empty);
            self.refused = true;
        }
    }

    /// Returns the whole text, or `Memory` if a call failed. Allocates nothing.
    pub fn into_string(self) -> Result<String>
        ensures ok { IfOk result (λ s. string_bytes s ≡ self.text) }
        ensures capacity { IfOk result (λ s. string_capacity s ≡ self.capacity) }
        ensures was_running { OnOk result (self.refused ≡ false) }
        ensures memory { OnErr result (IsErrOf result Memory) }
        ensures err { OnErr result (self.refused ≡ true) }
    {
        let Writer {
            text,
            unfinished: _,
            first: _,
            refused,
            normal: _,
        } = self;
        if refused {
            Err(Error::Memory)
        } else {
            Ok(text)
        }
    }
}

/// A value that writes itself as a JSON text: the compact text of its tree.
pub trait Serialize {
    /// The tree of a value.
    ghost tree: { Self → Tree };

    /// Appends the whole compact text of the value. The name `begin` is that of the Rust crate miniserde. If the next
    /// element or member was not the first of its container, it still is not. Returns `Memory` if an allocation fails
    /// or an earlier call of the writer failed; the writer then returns no text.
    fn begin(&self, w: &mut Writer) -> Result<()>
        ensures ok { OnOk result (w.new.text ≡ w.old.text ++ compact (tree self.now)) }
        ensures in_range { OnOk result (InRange (tree self.now)) }
        ensures normal { OnOk result (KeepsNormal w.old (tree self.now) w.new) }
        ensures first { OnOk result (w.old.first ≡ false → w.new.first ≡ false) }
        ensures unrefused { OnOk result (w.new.refused ≡ false) }
        ensures was_running { OnOk result (w.old.refused ≡ false) }
        ensures memory { OnErr result (IsErrOf result Memory) }
        ensures err { OnErr result (w.new.refused ≡ true) };
}
