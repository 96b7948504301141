// What is open around the place that a reader has come to, and the whole forms in it.
ghost use Rattle.std.specs.Prelude.{◌≡◌, ◌≤◌, ◌<◌, ◌+◌, [], ◌∷◌, OnOk, IfSome, IfNone, IfOk, Some, None, IsTrue, length};
ghost use Rattle.std.specs.List.{list_all};
ghost use Rattle.nq_form.specs.Form.{Forms, listed, end, push};
ghost use Rattle.nq_form.specs.Bytes.{is_constituent};
ghost use Rattle.nq_form.specs.Grammar.{takes_dot};
ghost use Rattle.nq_form.specs.Kinds.{kind_of};
ghost use Rattle.nq_form.specs.Machine.{first_list, spot_of, takes, top_place as top_place_of, give, opened_on, given, dotted_at, judged, deeper, close, close_dot, end_of, cut_off, outer};
ghost use Rattle.nq_sexp.specs.Stacks.{opened_of, frame_of, frames_of, stack_of, levels_in, left_level, is_marked, TopIs, IsListed, IsMarkFault, IsCutFault, EndsAs, Leads, Follows};
ghost use Rattle.nq_sexp.specs.Tree.{tree, trees};

use crate::bytes::in_upper_case;
use crate::form::{dotted_list, list, quote};
use crate::token::{TokenKind, token_kind};
use crate::{ReadFault, Sexp};
use bumpalo::Bump;
use std::alloc::{AllocError, Global};
use std::mem;

/// What was opened: a list, the tail of one behind a dot, or a quote.
#[derive(Clone, Copy)]
pub(crate) enum Opened {
    List,
    Dot,
    Mark,
}

/// What was opened and where, and the forms that stand before it.
#[derive(Drop)]
pub(crate) struct Frame<'a> {
    opened: Opened,
    place: u64,
    forms: Vec<Sexp<'a>>,
}

#[derive(Drop)]
pub(crate) struct Stack<'a> {
    alloc: Global,
    frames: Vec<Frame<'a>>,
    forms: Vec<Sexp<'a>>,
    depth: u16,
}

impl<'a> Stack<'a> {
    /// Nothing is open, and so many levels are allowed.
    pub(crate) fn new(alloc: Global, depth: u16) -> Self
        ensures { stack_of result ≡ record { frames = []; forms = end; depth = depth } }
    {
        Stack {
            alloc,
            frames: Vec::new(alloc),
            forms: Vec::new(alloc),
            depth,
        }
    }

    /// What was opened last.
    fn top(&self) -> Option<Opened>
        ensures { TopIs (frames_of self.now.frames.items) result }
    {
        match self.frames.last() {
            Some(frame) => Some(frame.opened),
            None => None,
        }
    }

    /// Whether a form may come next: behind a dot there is only one.
    pub(crate) fn takes_form(&self) -> bool
        ensures { result ≡ takes (stack_of self.now) }
    {
        match self.top() {
            Some(Opened::Dot) => self.forms.is_empty(),
            Some(Opened::List) => true,
            Some(Opened::Mark) => true,
            None => true,
        }
    }

    /// Whether a dot may come next: in a list, behind an element.
    fn takes_dot(&self) -> bool
        ensures { result ≡ takes_dot (spot_of (stack_of self.now).frames (stack_of self.now).forms) }
    {
        match self.top() {
            Some(Opened::List) => !self.forms.is_empty(),
            Some(Opened::Dot) => false,
            Some(Opened::Mark) => false,
            None => false,
        }
    }

    /// Where the last opening stands.
    pub(crate) fn top_place(&self) -> u64
        ensures { result ≡ top_place_of (stack_of self.now).frames }
    {
        match self.frames.last() {
            Some(frame) => frame.place,
            None => 0,
        }
    }

    /// Where the outermost list was opened.
    pub(crate) fn outermost(&self) -> Option<u64>
        ensures { result ≡ first_list (stack_of self.now).frames }
    {
        for frame in &self.frames {
            if is_list(frame.opened) {
                return Some(frame.place);
            }
        }
        None
    }

    /// Opens a list, a tail or a quote, with so many levels left in it.
    fn open(&mut self, opened: Opened, place: u64, depth: u16) -> Result<(), AllocError>
        ensures { OnOk result (stack_of self.new ≡ opened_on (opened_of opened) place (stack_of self.old) depth) }
    {
        let forms = mem::replace(&mut self.forms, Vec::new(self.alloc));
        self.frames.push(Frame {
            opened,
            place,
            forms,
        })?;
        self.depth = depth;
        Ok(())
    }

    /// Opens a list or a quote, where a level is left for it.
    pub(crate) fn open_level(&mut self, opened: Opened, place: u64) -> Result<(), ReadFault>
        ensures { Follows (deeper (stack_of self.old).depth (opened_of opened) place (stack_of self.old)) (stack_of self.old) (stack_of self.new) result }
    {
        if self.depth == 0 {
            return Err(ReadFault::TooDeep(place));
        }
        let depth = self.depth - 1;
        Ok(self.open(opened, place, depth)?)
    }

    /// Opens the tail of a list, where a dot may stand.
    fn open_tail(&mut self, place: u64) -> Result<(), ReadFault>
        ensures { Follows (dotted_at (takes_dot (spot_of (stack_of self.old).frames (stack_of self.old).forms)) place (stack_of self.old)) (stack_of self.old) (stack_of self.new) result }
    {
        if !self.takes_dot() {
            return Err(ReadFault::BadToken(place));
        }
        let depth = self.depth;
        Ok(self.open(Opened::Dot, place, depth)?)
    }

    fn is_marked(&self) -> bool
        ensures { result ≡ is_marked (stack_of self.now).frames }
    {
        match self.top() {
            Some(Opened::Mark) => true,
            Some(Opened::List) => false,
            Some(Opened::Dot) => false,
            None => false,
        }
    }

    /// Goes back to the forms before what was opened last, one level up.
    fn leave_level(&mut self)
        requires { (stack_of self.old).depth < 1000 }
        ensures { stack_of self.new ≡ left_level (stack_of self.old).frames (stack_of self.old) }
    {
        if let Some(frame) = self.frames.pop() {
            self.forms = frame.forms;
            self.depth += 1;
        }
    }

    /// Adds a form. Quotes that it ends are forms in turn.
    pub(crate) fn give(&mut self, arena: &'a Bump, form: Sexp<'a>) -> Result<(), AllocError>
        requires { levels_in (stack_of self.old) ≤ 501 }
        ensures { OnOk result (stack_of self.new ≡ give (stack_of self.old) (tree form.entry)) }
    {
        let mut form = form;
        while self.is_marked() {
            form = quote(arena, form)?;
            self.leave_level();
        }
        self.forms.push(form)?;
        Ok(())
    }

    /// Adds a form where one may stand. Else it is a second one behind a dot.
    pub(crate) fn give_form(&mut self, arena: &'a Bump, form: Sexp<'a>) -> Result<(), ReadFault>
        requires { levels_in (stack_of self.old) ≤ 500 }
        ensures { Follows (given (takes (stack_of self.old)) (stack_of self.old) (tree form.entry)) (stack_of self.old) (stack_of self.new) result }
    {
        if !self.takes_form() {
            return Err(ReadFault::BadToken(self.top_place()));
        }
        Ok(self.give(arena, form)?)
    }

    fn close_list(&mut self, arena: &'a Bump) -> Result<(), AllocError>
        requires { levels_in (stack_of self.old) ≤ 500 }
        ensures { OnOk result (stack_of self.new ≡ give (left_level (stack_of self.old).frames (stack_of self.old)) (listed (stack_of self.old).forms)) }
    {
        let form = list(arena, &self.forms)?;
        self.leave_level();
        self.give(arena, form)
    }

    /// Closes a list with a dotted tail, whose elements stand before the dot.
    fn close_tail(&mut self, arena: &'a Bump, dot: Frame<'a>, place: u64) -> Result<(), ReadFault>
        requires { levels_in (stack_of self.old) ≤ 500 }
        ensures { Leads (close_dot (stack_of self.old).forms (frame_of dot.entry) (stack_of self.old).frames (stack_of self.old).depth place) (outer (stack_of self.old).frames (frame_of dot.entry).forms) (stack_of self.new) result }
    {
        if self.frames.is_empty() {
            return Err(ReadFault::Unbalanced(place));
        }
        match self.forms.first() {
            None => Err(ReadFault::BadToken(dot.place)),
            Some(tail) => {
                let form = dotted_list(arena, &dot.forms, *tail)?;
                self.leave_level();
                Ok(self.give(arena, form)?)
            }
        }
    }

    /// Takes a closing parenthesis.
    pub(crate) fn close(&mut self, arena: &'a Bump, place: u64) -> Result<(), ReadFault>
        requires { levels_in (stack_of self.old) ≤ 500 }
        ensures { Follows (close (stack_of self.old).frames (stack_of self.old).forms (stack_of self.old).depth place) (stack_of self.old) (stack_of self.new) result }
    {
        match self.top() {
            Some(Opened::List) => Ok(self.close_list(arena)?),
            Some(Opened::Dot) => match self.frames.pop() {
                Some(dot) => self.close_tail(arena, dot, place),
                None => Err(ReadFault::Unbalanced(place)),
            },
            Some(Opened::Mark) => Err(self.mark_fault(place)),
            None => Err(ReadFault::Unbalanced(place)),
        }
    }

    /// The fault of a closing parenthesis behind a quote mark.
    fn mark_fault(&self, place: u64) -> ReadFault
        ensures { IsMarkFault (first_list (stack_of self.now).frames) place result }
    {
        match self.outermost() {
            Some(_) => ReadFault::BadToken(place),
            None => ReadFault::Unbalanced(place),
        }
    }

    /// The fault of a string or a comment at this place, whose end is missing.
    pub(crate) fn cut_fault(&self, place: u64) -> ReadFault
        ensures { IsCutFault (cut_off (first_list (stack_of self.now).frames) place (stack_of self.now)).ending result }
    {
        match self.outermost() {
            Some(outer) => ReadFault::Unbalanced(outer),
            None => ReadFault::Unbalanced(place),
        }
    }

    /// Takes a token that is over.
    pub(crate) fn judge(
        &mut self,
        arena: &'a Bump,
        place: u64,
        word: &[u8],
    ) -> Result<(), ReadFault>
        requires levels { levels_in (stack_of self.old) ≤ 500 }
        requires constituents { IsTrue (list_all is_constituent word.now) }
        requires some { 0 < length word.now }
        ensures { Follows (judged (kind_of word.now) place (stack_of self.old)) (stack_of self.old) (stack_of self.new) result }
    {
        match token_kind(word) {
            TokenKind::Symbol => {
                let upper = in_upper_case(self.alloc, word)?;
                let name: &[u8] = arena.try_alloc_slice_copy(&upper)?;
                self.give_form(arena, Sexp::Symbol(name))
            }
            TokenKind::Numeral(negative, n) => self.give_form(arena, Sexp::Numeral(negative, n)),
            TokenKind::TooWide => Err(ReadFault::NumeralTooWide(place)),
            TokenKind::Dot => self.open_tail(place),
            TokenKind::Bad => Err(ReadFault::BadToken(place)),
        }
    }

    /// How the end of the text is answered behind what is open.
    pub(crate) fn end(&self) -> Result<(), ReadFault>
        ensures { EndsAs (end_of (first_list (stack_of self.now).frames) (stack_of self.now)).ending result }
    {
        match self.outermost() {
            Some(place) => Err(ReadFault::Unbalanced(place)),
            None => match self.frames.last() {
                Some(frame) => Err(ReadFault::BadToken(frame.place)),
                None => Ok(()),
            },
        }
    }

    /// The form that stands whole outside all that is open, if there is one.
    pub(crate) fn take_whole(&mut self) -> Option<Sexp<'a>>
        ensures none { IfNone result ((stack_of self.new ≡ stack_of self.old) × ((stack_of self.old).frames ≡ [] → (stack_of self.old).forms ≡ end)) }
        ensures some { IfSome result (λ form. ((stack_of self.old).frames ≡ []) × ((fs : Forms) × ((stack_of self.old).forms ≡ push fs (tree form)))) }
    {
        if self.frames.is_empty() {
            self.forms.pop()
        } else {
            None
        }
    }
}

fn is_list(opened: Opened) -> bool
    ensures { IsListed opened result }
{
    match opened {
        Opened::List => true,
        Opened::Dot => false,
        Opened::Mark => false,
    }
}
