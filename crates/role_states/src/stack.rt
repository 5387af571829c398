ghost use Rattle.std.specs.Prelude.{◌≡◌, ◌<◌, ◌∷◌, [], length, false, is_none, IfOk};
ghost use Rattle.role_states.specs.inner.Stacks.{most_frames, top, rest};

use crate::frame::Frame;
use caa_base::written::entry::OutOfMemory;
use std::alloc::Global;
use std::marker::Model;

/// The frames of one participant, seen as the list of them, the innermost first.
#[derive(Drop)]
pub struct Stack {
    frames: Vec<Frame>,
}

impl Model for Stack {
    ghost use Rattle.std.specs.Prelude.{◌≡◌, List, reverse, vec_capacity};
    ghost use Rattle.role_states.specs.declared.frame.Frame.{Frame as FrameValue};
    ghost use Rattle.role_states.specs.inner.Stacks.{most_frames};

    ghost Value = { List FrameValue };

    ghost view = { λ s. reverse s.frames.items };

    ghost invariant = { λ s. vec_capacity s.frames ≡ most_frames };
}

impl Stack {
    /// No frames, and room for eight.
    pub fn new(alloc: Global) -> Result<Stack, OutOfMemory>
        ensures { IfOk result (λ s. s ≡ []) }
    {
        let frames = Vec::with_capacity(alloc, 8)?;
        Ok(Stack { frames })
    }

    /// The innermost frame.
    pub fn top(&self) -> Option<Frame>
        ensures { result ≡ top self.now }
    {
        self.frames.last().copied()
    }

    /// One frame more, inside the others.
    pub fn push(&mut self, frame: Frame)
        requires { length self.old < most_frames }
        ensures { self.new ≡ frame ∷ self.old }
    {
        self.frames.push_reserved(frame);
    }

    /// Without the innermost frame.
    pub fn pop(&mut self)
        ensures { self.new ≡ rest self.old }
    {
        self.frames.pop();
    }

    /// Another innermost frame in place of the one that is there.
    pub fn change(&mut self, frame: Frame)
        requires { is_none (top self.old) ≡ false }
        ensures { self.new ≡ frame ∷ rest self.old }
    {
        self.frames.pop();
        self.frames.push_reserved(frame);
    }
}
