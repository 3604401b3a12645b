//! The stack of frames, of at most `MAX_FRAMES`, in room that is made once.

ghost use Rattle.std.specs.Prelude.{◌≡◌, ◌<◌, ◌≤◌, [], ◌∷◌, length, IfOk, reverse, slice_index};
ghost use Rattle.std.specs.Prelude.{Some, slice_set, vec_capacity, vec_len};
ghost use Rattle.cm_machine_model.specs.Stack.{top_of, below_top};
ghost use Rattle.cm_machine_model.specs.Work.{top_call};

use cm_machine_model::MAX_FRAMES;
use cm_machine_model::state::{Frame, Purpose};
use std::alloc::{AllocError, Global};
use std::marker::Model;

/// The frames, the top first, and for each place of the stack, from 0 at the bottom, a number: how
/// many handles of its call's instance are borrowed for the call.
#[derive(Drop)]
pub struct Stack {
    frames: Vec<Frame>,
    borrows: [u32; MAX_FRAMES],
}

impl Model for Stack {
    ghost use Rattle.std.specs.Prelude.{◌≡◌, ◌≤◌, List, reverse, length, vec_len, vec_capacity};
    ghost use Rattle.cm_machine_model.specs.declared.limits.TheConstants.{MAX_FRAMES};
    ghost use Rattle.cm_machine_parts.specs.Stacks.{CountedFrames};

    ghost Value = { CountedFrames };

    ghost view = { λ s. record { frames = reverse s.frames.items; borrows = s.borrows } };

    ghost invariant = { λ s.
        (vec_len s.frames ≤ MAX_FRAMES) × (MAX_FRAMES ≤ vec_capacity s.frames)
        × (length s.borrows ≡ MAX_FRAMES) };
}

impl Stack {
    /// An empty stack with all the room that it ever takes.
    pub fn new(alloc: Global) -> Result<Stack, AllocError>
        ensures { IfOk result (λ s. s.frames ≡ []) }
    {
        let frames = Vec::with_capacity(alloc, MAX_FRAMES)?;
        Ok(Stack {
            frames,
            borrows: [0; MAX_FRAMES],
        })
    }

    /// How many frames stand.
    pub fn len(&self) -> usize
        ensures len { result ≡ length self.now.frames }
        ensures most { result ≤ MAX_FRAMES }
        ensures numbers { length self.now.borrows ≡ MAX_FRAMES }
    {
        self.frames.len()
    }

    /// The frame on top.
    pub fn top(&self) -> Option<Frame>
        ensures { result ≡ top_of self.now.frames }
    {
        self.frames.last().copied()
    }

    /// The frame on top, where one stands.
    pub fn last(&self) -> Frame
        requires { 0 < length self.now.frames }
        ensures { top_of self.now.frames ≡ Some result }
    {
        match self.frames.last() {
            Some(frame) => *frame,
            None => unreachable!(),
        }
    }

    /// The place of the topmost frame of a call, from 0 at the bottom: frames of destructors above
    /// it do not count.
    pub fn top_call(&self) -> Option<usize>
        ensures { result ≡ top_call self.now.frames }
    {
        top_call(&self.frames)
    }

    /// Puts a frame on top, for which nothing is borrowed; there is room for it.
    #[inline(always)]
    pub fn push(&mut self, frame: Frame)
        requires { length self.old.frames < MAX_FRAMES }
        ensures frames { self.new.frames ≡ frame ∷ self.old.frames }
        ensures borrows { self.new.borrows
            ≡ slice_set self.old.borrows (length self.old.frames) 0 }
        ensures none { slice_index self.new.borrows (length self.old.frames) ≡ 0 }
    {
        // Read first, so that the check knows what holds of the stack.
        let _ = &self.frames;
        self.borrows[self.frames.len()] = 0;
        match self.frames.push(frame) {
            Ok(()) => {}
            Err(_) => unreachable!(),
        }
    }

    /// Takes the top frame away, and answers it.
    pub fn pop(&mut self) -> Option<Frame>
        ensures top { result ≡ top_of self.old.frames }
        ensures below { self.new.frames ≡ below_top self.old.frames }
        ensures borrows { self.new.borrows ≡ self.old.borrows }
    {
        self.frames.pop()
    }

    /// Puts a frame in the place of the one on top.
    #[inline(always)]
    pub fn turn(&mut self, frame: Frame)
        requires { 0 < length self.old.frames }
        ensures frames { self.new.frames ≡ frame ∷ below_top self.old.frames }
        ensures borrows { self.new.borrows ≡ self.old.borrows }
    {
        // Read first, so that the check knows what holds of the stack.
        let _ = &self.frames;
        put_last(&mut self.frames, frame);
    }

    /// How many handles are borrowed for the call at a place of the stack.
    pub fn borrows(&self, place: usize) -> u32
        requires { place < MAX_FRAMES }
        ensures { result ≡ slice_index self.now.borrows place }
    {
        self.borrows[place]
    }

    /// Says how many handles are borrowed for the call at a place of the stack.
    pub fn set_borrows(&mut self, place: usize, count: u32)
        requires { place < MAX_FRAMES }
        ensures frames { self.new.frames ≡ self.old.frames }
        ensures borrows { self.new.borrows ≡ slice_set self.old.borrows place count }
    {
        self.borrows[place] = count;
    }
}

/// Puts a frame in the place of the last one.
fn put_last(frames: &mut Vec<Frame>, frame: Frame)
    requires { 0 < vec_len frames.old }
    ensures frames { reverse frames.new.items ≡ frame ∷ below_top (reverse frames.old.items) }
    ensures len { vec_len frames.new ≡ vec_len frames.old }
    ensures room { vec_capacity frames.new ≡ vec_capacity frames.old }
{
    let last = frames.len() - 1;
    frames[last] = frame;
}

/// The place of the last of these frames that is one of a call.
fn top_call(frames: &[Frame]) -> Option<usize>
    ensures { result ≡ top_call (reverse frames.now) }
{
    let mut above = frames.len();
    while above > 0 {
        if let Purpose::Call(_) = frames[above - 1].purpose {
            return Some(above - 1);
        }
        above -= 1;
    }
    None
}
