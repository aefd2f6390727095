//! The draft: the canonical text of what was read so far.
//!
//! Input that is canonical already is copied in runs of bytes; whitespace, an escaped string, `-0`, a name that is not
//! as it is to be written, or the end of an object that is out of order ends a run. If the
//! names of an object ascend, its text stays. If not, its members are sorted in the groups: a short group is copied
//! back, and a long one leaves a splice in the text, so that its bytes move only once more.
//!
//! In the clauses, `rest` is the input that is left before a call and `rest'` after it, `part` is what the call takes,
//! and `bs` is the text with its run. `Wrote d rest bs` says that the draft d has that text, and `Holding d bs s` that
//! d is then at the state s: the canonical text so far, with the members of the open objects. `Represents d rest s`
//! says both.
ghost use Rattle.std.specs.Prelude.{◌≡◌, ◌++◌, ◌∷◌, [], ℕ, List, length, IfOk, OnOk};
ghost use Rattle.miniserde_model.specs.Compact.{string_text};
ghost use Rattle.miniserde_text.specs.Lexer.{Blank, event_of_token, text_of, SpelledToken};
ghost use Rattle.miniserde_text.specs.private.Escape.{escapes};
ghost use Rattle.miniserde_text.specs.private.Moments.{opened_kind};
ghost use Rattle.miniserde_model.specs.Tokens.{name, comma_before};
ghost use Rattle.miniserde_canonical.specs.private.EventTokens.{first_token};
ghost use Rattle.miniserde_canonical.specs.private.Plain.{TextPlain, PartIsToken, NameSpelled};
ghost use Rattle.miniserde_canonical.specs.private.States.{State, TokenStep, Closes, initial_state};
ghost use Rattle.miniserde_canonical.specs.private.Drafts.{Wrote, Holding, TakesPart, ChangesOnlyText, Represents};

use crate::member::{Member, Name};
use crate::members::rises;
use crate::put::{is_as_written, put_quoted, put_string};
use crate::sort_members::sort_members;
use crate::spread::{Point, SplicedText, part};
use miniserde_text::json::lex::{Event, Kind, Lexer, Text};
use std::alloc::{AllocError, Global};

/// The span of a token in the input.
#[derive(Clone, Copy, Drop)]
pub(crate) struct InputSpan {
    /// How many bytes of the input are left at its start.
    pub(crate) at: usize,
    /// How many bytes of the input are left after its end.
    pub(crate) end: usize,
}

/// The canonical text of what was read so far.
#[derive(Drop)]
pub(crate) struct Draft<'a> {
    alloc: Global,
    input: &'a str,
    // How many bytes of the input are left at the start of the run that is not in the text yet.
    left: usize,
    // The text so far, without the run. It has the members of the open objects in the order of the input.
    pub(crate) out: SplicedText,
    // The sorted members of closed objects that were out of order, if they were not copied back.
    pub(crate) groups: SplicedText,
    // The members so far of all open objects, those of the outermost object first.
    members: Vec<Member<'a>>,
    // For each open object, the outermost first, how many of `members` come before its own.
    opened: Vec<usize>,
    // Whether no closed object had a duplicate name.
    pub(crate) is_distinct: bool,
    // Room for the indices of members that are being sorted.
    order: Vec<usize>,
    // Room for a name that is being escaped.
    escaped: String,
}

impl<'a> Draft<'a> {
    /// Returns the draft of an input from which nothing was read yet.
    pub(crate) fn new(alloc: Global, input: &'a str) -> Draft<'a>
        ensures { Represents result input.now initial_state }
    {
        Draft {
            alloc,
            input,
            left: input.len(),
            out: SplicedText::new(alloc),
            groups: SplicedText::new(alloc),
            members: Vec::new(alloc),
            opened: Vec::new(alloc),
            is_distinct: true,
            order: Vec::new(alloc),
            escaped: String::new(alloc),
        }
    }

    /// Appends the current run of input to the text, up to where `left` bytes of input are left. The next run begins
    /// there. Fails if the text cannot grow. If `left` is above the count at the start of the run, nothing is appended.
    #[inline(always)]
    pub(crate) fn flush(&mut self, left: usize) -> Result<(), AllocError>
        ensures wrote { OnOk result ((rest bs : List ℕ) → Wrote self.old rest bs → left ≡ length rest
            → Wrote self.new rest bs × (self.new.out.bytes.items ≡ bs)) }
        ensures left { OnOk result (self.new.left ≡ left) }
        ensures only_text { OnOk result (ChangesOnlyText self.old self.new) }
    {
        let all = self.input.len();
        let bytes = self.input.as_bytes();
        let run = part(
            bytes,
            all.saturating_sub(self.left),
            all.saturating_sub(left),
        );
        self.out.bytes.extend_from_slice(run)?;
        self.left = left;
        Ok(())
    }

    /// Takes whitespace, and leaves it out: the run before it is appended to the text, and the next run begins after
    /// it. Returns how many bytes of the input are left after it. Fails if the text cannot grow.
    #[inline(always)]
    pub(crate) fn skip(&mut self, lexer: &mut Lexer<'a>) -> Result<usize, AllocError>
        ensures at { IfOk result (λ at. at ≡ length lexer.new.rest) }
        ensures blank { OnOk result (Blank lexer.old.rest lexer.new.rest) }
        ensures going { OnOk result (lexer.new.refused ≡ lexer.old.refused) }
        ensures wrote { OnOk result ((bs : List ℕ) → Wrote self.old lexer.old.rest bs → Wrote self.new lexer.new.rest bs) }
        ensures only_text { OnOk result (ChangesOnlyText self.old self.new) }
    {
        let at = lexer.left();
        lexer.skip();
        let end = lexer.left();
        if at != end {
            self.flush(at)?;
            self.left = end;
        }
        Ok(end)
    }

    /// Takes the first token of a value, whose span in the input is `span`, and returns the kind of the container that
    /// it opens. `-0` and a string with a backslash, which is in `escaped` as the escape rule writes it, are written
    /// anew; any other token stays in the run. Fails if an allocation fails.
    #[inline(always)]
    pub(crate) fn token(
        &mut self,
        token: Event<'_>,
        escaped: &str,
        span: InputSpan,
    ) -> Result<Option<Kind>, AllocError>
        ensures opens { (x : List ℕ) → IfOk result (λ k. k ≡ opened_kind (event_of_token token.entry x)) }
        ensures takes { OnOk result ((rest part rest' x : List ℕ) (s s' : State) → Represents self.old rest s
            → TakesPart span rest part rest'
            → SpelledToken escapes token.entry escaped.now x → PartIsToken token.entry x part
            → TokenStep (first_token (event_of_token token.entry x)) s s' → Represents self.new rest' s') }
    {
        match token {
            Event::Negative(n) => {
                if n != 0 {
                    return Ok(None);
                }
                self.flush(span.at)?;
                self.out.bytes.push(b'0')?;
                self.left = span.end;
            }
            Event::Str(text) => {
                if let Text::Scratch = text {
                    self.flush(span.at)?;
                    put_quoted(escaped, &mut self.out.bytes)?;
                    self.left = span.end;
                }
            }
            Event::SeqStart => return Ok(Some(Kind::Seq)),
            Event::MapStart => {
                self.opened.push(self.members.len())?;
                return Ok(Some(Kind::Map));
            }
            _ => {}
        }
        Ok(None)
    }

    /// Takes the name of a member with its colon, whose span in the input is `span`, and adds the member to those of
    /// the innermost object. `first` says that the member is the first of its object. If it is not, its comma is in the
    /// text or the run already. Fails if an allocation fails, or if an index overflows.
    #[inline(always)]
    pub(crate) fn add_member(
        &mut self,
        text: Text<'a>,
        scratch: &str,
        first: bool,
        span: InputSpan,
    ) -> Result<(), AllocError>
        requires { TextPlain text }
        // The comma before the name was read already, so `Wrote` has it. The state s gets it only with the name.
        ensures { OnOk result ((rest part rest' before : List ℕ) (s s' : State)
            → Wrote self.old rest (before ++ comma_before s.first) → Holding self.old before s
            → TakesPart span rest part rest' → NameSpelled text.entry part → s.first ≡ first
            → TokenStep (name (text_of text.entry scratch.now)) s s' → Represents self.new rest' s') }
    {
        // The member begins at the end of the text, once the run up to its name is there.
        let run = self.left.saturating_sub(span.at);
        let point = Point {
            bytes: self.out.bytes.len().checked_add(run).ok_or(AllocError)?,
            splices: self.out.splices.len(),
        };
        let name = Name::new(self.alloc, text, scratch)?;
        self.members.push(Member::new(name, point, first))?;
        self.spell(text, scratch, span)?;
        Ok(())
    }

    // Appends a name with its colon, whose span in the input is `span`. If the input has both as they are to be
    // written, they stay in the run. Fails if an allocation fails.
    #[inline(always)]
    fn spell(&mut self, text: Text<'_>, scratch: &str, span: InputSpan) -> Result<(), AllocError>
        requires { TextPlain text }
        ensures wrote { OnOk result ((rest part rest' bs : List ℕ) → Wrote self.old rest bs
            → TakesPart span rest part rest' → NameSpelled text.entry part
            → Wrote self.new rest' (bs ++ (string_text (text_of text.entry scratch.now) ++ 58 ∷ []))) }
        ensures only_text { OnOk result (ChangesOnlyText self.old self.new) }
    {
        if is_as_written(text, span.at.saturating_sub(span.end)) {
            return Ok(());
        }
        self.flush(span.at)?;
        put_string(text, scratch, &mut self.escaped, &mut self.out.bytes)?;
        self.out.bytes.push(b':')?;
        self.left = span.end;
        Ok(())
    }

    /// Closes the innermost object. If its names do not strictly rise, puts its members in order, and keeps the last of
    /// equal names alone. `at` is how many bytes of the input are left from the closing bracket on, which stays in the
    /// run. Does nothing if no object is open (no clause says so). Fails if an allocation fails.
    pub(crate) fn close(&mut self, at: usize) -> Result<(), AllocError>
        ensures { OnOk result ((rest : List ℕ) (s : State) → Represents self.old rest s → at ≡ length rest
            → (m : State) × Closes s m × Represents self.new rest m) }
    {
        let Some(before) = self.opened.pop() else {
            return Ok(());
        };
        // Never so: an object that closes removes its own members alone.
        if self.members.len() < before {
            return Ok(());
        }
        if rises(&self.members[before..]) {
            self.members.truncate(before);
            return Ok(());
        }
        self.flush(at)?;
        let outermost = self.opened.is_empty();
        let is_distinct = sort_members(
            &self.members[before..],
            outermost,
            &mut self.order,
            &mut self.out,
            &mut self.groups,
        )?;
        self.is_distinct = self.is_distinct & is_distinct;
        self.members.truncate(before);
        Ok(())
    }
}
