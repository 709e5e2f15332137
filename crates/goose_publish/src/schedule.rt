//! The publishing schedule.

ghost use Rattle.std.specs.Prelude.{◌≡◌};
ghost use Rattle.goose_publish.specs.Publishing.{same_points, next_count};

use crate::pace::Pace;
use crate::points::{Points, Send};
use relay_settings::Common;

fn is_same(a: &Points, b: &Points) -> bool
    ensures { result ≡ same_points a.now b.now }
{
    *a == *b
}

/// The count after this one; after the greatest comes 1.
fn next_of(count: u32) -> u32
    ensures { result ≡ next_count count }
{
    if count == u32::MAX { 1 } else { count + 1 }
}

/// The points that were last taken, the number at which they changed, the counts of the last frame, and how far
/// the offsets since the change have come.
#[derive(Drop)]
pub struct Schedule {
    pace: Pace,
    last: Option<Points>,
    change: u64,
    state: u32,
    sequence: u32,
}

impl Schedule {
    ghost use Rattle.std.specs.Prelude.{ℕ, ◌≡◌, ◌<◌, ◌≤◌, ◌^◌, not, List, [], ◌∷◌, IsTrue, IfSome};
    ghost use Rattle.std.specs.Option.{ForSome};
    ghost use Rattle.relay_settings.specs.declared.types.Common.{Common};
    ghost use Rattle.goose_publish.specs.declared.points.Points.{Points};
    ghost use Rattle.goose_publish.specs.Publishing.{PointsTake, take_of, RisesTo, changes_now, sends_now, sent, send_of};
    ghost use Rattle.goose_publish.specs.Sends.{IsSentAt};
    ghost use Rattle.goose_publish.specs.Schedules.{HasTaken, points_now};

    /// One that has taken nothing.
    pub fn new(common: &Common) -> Schedule
        requires rate { 1000 ≤ common.now.rate }
        requires some { 0 < common.now.heartbeat_ms }
        requires heartbeat { common.now.heartbeat_ms ≤ 60000 }
        ensures { HasTaken common.now [] result }
    {
        Schedule {
            pace: Pace::new(common),
            last: None,
            change: 0,
            state: 0,
            sequence: 0,
        }
    }

    /// Takes the points of the next sample, and answers the frame that is sent at it.
    pub fn take(&mut self, number: u64, points: &Points) -> Option<Send>
        requires { number < 2 ^ 61 }
        ensures send { (common : Common) (takes : List PointsTake) →
            HasTaken common takes self.old → RisesTo (take_of number points.now) takes →
            result ≡ send_of common (take_of number points.now) takes }
        ensures after { (common : Common) (takes : List PointsTake) →
            HasTaken common takes self.old → RisesTo (take_of number points.now) takes →
            HasTaken common (take_of number points.now ∷ takes) self.new }
        ensures sent { IfSome result (λ s. IsSentAt number points.now s) }
    {
        if self.note(number, points) {
            Some(self.send(number, points))
        } else {
            None
        }
    }

    /// Whether nothing is sent at the next sample, where its points are those of the last take. It needn't be taken then:
    /// the schedule holds the same after it.
    pub fn is_idle(&self, number: u64) -> bool
        requires { number < 2 ^ 61 }
        ensures idle { (common : Common) (takes : List PointsTake) (points : Points) →
            HasTaken common takes self.now → RisesTo (take_of number points) takes → ForSome (points_now takes) (λ last. last ≡ points) →
            result ≡ not (sends_now common (take_of number points ∷ takes)) }
        ensures after { (common : Common) (takes : List PointsTake) (points : Points) →
            HasTaken common takes self.now → RisesTo (take_of number points) takes → ForSome (points_now takes) (λ last. last ≡ points) →
            IsTrue result → HasTaken common (take_of number points ∷ takes) self.now }
    {
        if self.last.is_none() {
            return false;
        }
        !self.pace.is_within(number.saturating_sub(self.change))
    }

    /// Whether these points are the first, or differ from those taken before.
    fn changes(&self, points: &Points) -> bool
        ensures { (common : Common) (takes : List PointsTake) (number : ℕ) → HasTaken common takes self.now →
            result ≡ changes_now (take_of number points.now ∷ takes) }
    {
        match &self.last {
            Some(last) => !is_same(points, last),
            None => true,
        }
    }

    /// Takes the points of the next sample, and answers whether a frame is sent at it.
    fn note(&mut self, number: u64, points: &Points) -> bool
        requires { number < 2 ^ 61 }
        ensures sends { (common : Common) (takes : List PointsTake) →
            HasTaken common takes self.old → RisesTo (take_of number points.now) takes →
            result ≡ sends_now common (take_of number points.now ∷ takes) }
        ensures after { (common : Common) (takes : List PointsTake) →
            HasTaken common takes self.old → RisesTo (take_of number points.now) takes →
            HasTaken common (take_of number points.now ∷ takes) self.new }
        ensures change { IsTrue result → self.new.change ≤ number }
    {
        if self.changes(points) {
            self.last = Some(*points);
            self.pace.restart();
            self.change = number;
            self.state = next_of(self.state);
            self.sequence = 0;
            true
        } else if self.pace.pass(number.saturating_sub(self.change)) {
            self.sequence = next_of(self.sequence);
            true
        } else {
            false
        }
    }

    /// The frame that is sent at this sample, which was just taken.
    fn send(&self, number: u64, points: &Points) -> Send
        requires { self.now.change ≤ number }
        ensures exact { (common : Common) (takes : List PointsTake) →
            HasTaken common (take_of number points.now ∷ takes) self.now →
            result ≡ sent common (take_of number points.now) takes }
        ensures sent { IsSentAt number points.now result }
    {
        Send {
            number,
            change: self.change,
            state: self.state,
            sequence: self.sequence,
            live_ms: self.pace.live_ms(),
            points: *points,
        }
    }
}
