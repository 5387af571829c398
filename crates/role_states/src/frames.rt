ghost use Rattle.std.specs.Prelude.{◌≡◌, ◌<◌, ◌-◌, ◌^◌, ◌∷◌, [], List, length, slice_set, false, is_none, None, IfOk, IfSome};
ghost use Rattle.caa_base.specs.declared.written.entry.Entry.{Entry as EntryValue};
ghost use Rattle.place_plan.specs.Plans.PlanValue.{Plan as PlanValue};
ghost use Rattle.role_states.specs.inner.Stacks.{most_frames, top, rest, at, entered, advanced, begun, changed};
ghost use Rattle.role_states.specs.inner.Standing.{NestsWell, IsInnermost, StandsFor, Comes, Steps, BeginsHandler, GoesOut, ComesBack};

use crate::frame::Frame;
use crate::stack::Stack;
use caa_base::written::entry::{OutOfMemory, Participant, Place};
use place_plan::plans::plan::Plan;
use std::alloc::Global;
use std::marker::Model;

/// The frames of all participants, seen as a list for each, the innermost frame first.
#[derive(Drop)]
pub struct Frames {
    stacks: Vec<Stack>,
}

impl Model for Frames {
    ghost use Rattle.std.specs.Prelude.{List};
    ghost use Rattle.role_states.specs.declared.frame.Frame.{Frame as FrameValue};

    ghost Value = { List (List FrameValue) };

    ghost view = { λ frames. frames.stacks.items };
}

/// A frame after one step more.
fn one_step_on(frame: Frame, value: Option<i64>) -> Frame
    requires { frame.position < 2 ^ 32 - 1 }
    ensures { result ≡ advanced value frame }
{
    Frame {
        position: frame.position + 1,
        register: match value {
            Some(value) => value,
            None => frame.register,
        },
        ..frame
    }
}

impl Frames {
    /// Everybody is in no place.
    pub fn open(alloc: Global, plan: &Plan) -> Result<Frames, OutOfMemory>
        ensures { IfOk result (λ frames. StandsFor plan.now [] frames) }
    {
        let mut stacks = Vec::new(alloc);
        for _ in 0..plan.participants() {
            stacks.push(Stack::new(alloc)?)?;
        }
        Ok(Frames { stacks })
    }

    /// The innermost frame of a participant; none where it is in no place.
    #[inline(always)]
    pub fn frame(&self, by: Participant) -> Option<Frame>
        ensures kept { result ≡ top (at self.now by) }
        ensures by_journal { (plan : PlanValue) (past : List EntryValue) → StandsFor plan past self.now
            → by < length plan.participants → IsInnermost plan past by result }
    {
        self.top(by)
    }

    /// A participant comes to a place, and stands at the beginning of its program there. All other frames stay as they are.
    pub fn enter(&mut self, by: Participant, place: Place)
        requires known { by < length self.old }
        requires room { length (at self.old by) < most_frames }
        ensures entered { self.new ≡ slice_set self.old by (entered place ∷ at self.old by) }
        ensures keeps { (plan : PlanValue) (past : List EntryValue) (e : EntryValue) → StandsFor plan past self.old
            → Comes plan past e by place → StandsFor plan (e ∷ past) self.new }
    {
        self.push(by, place);
    }

    /// A participant makes a step in its innermost place, which may give its register a value. All other frames stay as they are.
    pub fn advance(&mut self, by: Participant, value: Option<i64>)
        requires known { by < length self.old }
        requires there { is_none (top (at self.old by)) ≡ false }
        requires few { IfSome (top (at self.old by)) (λ frame. frame.position < 2 ^ 32 - 1) }
        ensures advanced { self.new ≡ slice_set self.old by (changed (advanced value) (at self.old by)) }
        ensures keeps { (plan : PlanValue) (past : List EntryValue) (e : EntryValue) → NestsWell plan → StandsFor plan past self.old
            → Steps plan past e by value → StandsFor plan (e ∷ past) self.new }
    {
        self.step(by, value);
    }

    /// A participant begins its handler in its innermost place. All other frames stay as they are.
    pub fn begin_handler(&mut self, by: Participant)
        requires known { by < length self.old }
        requires there { is_none (top (at self.old by)) ≡ false }
        ensures begun { self.new ≡ slice_set self.old by (changed begun (at self.old by)) }
        ensures keeps { (plan : PlanValue) (past : List EntryValue) (e : EntryValue) → NestsWell plan → StandsFor plan past self.old
            → BeginsHandler plan past e by → StandsFor plan (e ∷ past) self.new }
    {
        self.begin_anew(by);
    }

    /// A participant goes out of its innermost place, and makes no step in the place round it: it withdraws, or it leaves in
    /// silence. All other frames stay as they are.
    pub fn leave(&mut self, by: Participant)
        requires { by < length self.old }
        ensures left { self.new ≡ slice_set self.old by (rest (at self.old by)) }
        ensures keeps { (plan : PlanValue) (past : List EntryValue) (e : EntryValue) → NestsWell plan → StandsFor plan past self.old
            → GoesOut plan past e by → StandsFor plan (e ∷ past) self.new }
    {
        self.pop(by);
    }

    /// A participant comes back from its innermost place, which is a step in the place round it. All other frames stay as they are.
    pub fn come_back(&mut self, by: Participant)
        requires known { by < length self.old }
        requires few { IfSome (top (rest (at self.old by))) (λ frame. frame.position < 2 ^ 32 - 1) }
        ensures back { self.new ≡ slice_set self.old by (changed (advanced None) (rest (at self.old by))) }
        ensures keeps { (plan : PlanValue) (past : List EntryValue) (e : EntryValue) → NestsWell plan → StandsFor plan past self.old
            → ComesBack plan past e by → StandsFor plan (e ∷ past) self.new }
    {
        self.pop_and_step(by);
    }
}

// What the calls do to the frames; what that means for the journal is said at the calls.
impl Frames {
    /// The innermost frame, where there is one.
    #[inline(always)]
    fn top(&self, by: Participant) -> Option<Frame>
        ensures { result ≡ top (at self.now by) }
    {
        self.stacks.get(by as usize)?.top()
    }

    /// One frame more, at the beginning of a body.
    fn push(&mut self, by: Participant, place: Place)
        requires known { by < length self.old }
        requires room { length (at self.old by) < most_frames }
        ensures { self.new ≡ slice_set self.old by (entered place ∷ at self.old by) }
    {
        self.stacks[by as usize].push(Frame {
            place,
            position: 0,
            register: 0,
            handling: false,
        });
    }

    /// The innermost frame, one step on.
    fn step(&mut self, by: Participant, value: Option<i64>)
        requires known { by < length self.old }
        requires there { is_none (top (at self.old by)) ≡ false }
        requires few { IfSome (top (at self.old by)) (λ frame. frame.position < 2 ^ 32 - 1) }
        ensures { self.new ≡ slice_set self.old by (changed (advanced value) (at self.old by)) }
    {
        let stack = &mut self.stacks[by as usize];
        if let Some(frame) = stack.top() {
            stack.change(one_step_on(frame, value));
        }
    }

    /// The innermost frame, at the beginning of a handler.
    fn begin_anew(&mut self, by: Participant)
        requires known { by < length self.old }
        requires there { is_none (top (at self.old by)) ≡ false }
        ensures { self.new ≡ slice_set self.old by (changed begun (at self.old by)) }
    {
        let stack = &mut self.stacks[by as usize];
        if let Some(frame) = stack.top() {
            stack.change(Frame {
                position: 0,
                register: 0,
                handling: true,
                ..frame
            });
        }
    }

    /// Without the innermost frame.
    fn pop(&mut self, by: Participant)
        requires { by < length self.old }
        ensures { self.new ≡ slice_set self.old by (rest (at self.old by)) }
    {
        self.stacks[by as usize].pop();
    }

    /// Without the innermost frame, and with the one round it, where there is one, one step on.
    fn pop_and_step(&mut self, by: Participant)
        requires known { by < length self.old }
        requires few { IfSome (top (rest (at self.old by))) (λ frame. frame.position < 2 ^ 32 - 1) }
        ensures { self.new ≡ slice_set self.old by (changed (advanced None) (rest (at self.old by))) }
    {
        let stack = &mut self.stacks[by as usize];
        stack.pop();
        if let Some(frame) = stack.top() {
            stack.change(one_step_on(frame, None));
        }
    }
}
