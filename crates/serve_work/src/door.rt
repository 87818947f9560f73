//! Where the streams of a session come from that come and go, and where they are told.
ghost use Rattle.std.specs.Prelude.{◌≡◌, ◌++◌, List, [], ◌∷◌, IfNone, IfSome, IsFalse, IsSomeAnd, length};
ghost use Rattle.serve_work.specs.History.{EpochValue};
ghost use Rattle.serve_work.specs.Live.{IsAdmitted, IsAnswer, IsStanding, Waiting, waiting_of};
ghost use Rattle.serve_work.specs.Sessions.{IsInput};

use crate::chronicle::Chronicle;
use crate::request::{Answer, Request, Standing};
use y4m_stream::{Sink, Source};

/// What tells whether a request is there, or a question (see [`Door::asks`]).
pub trait Bell {
    /// That it has told that no more requests come. What that means is the door's to say.
    ghost is_over: { Self → Type 0 };

    /// Waits until a request or a question is there. Answers whether one is: no other comes where none is.
    fn wait(&self) -> bool
        ensures over { IsFalse result → is_over self.now };

    /// Waits for a request or a question, for at most so many milliseconds, and answers whether one is there.
    fn is_there(&self, patience: u64) -> bool;

    /// Is told that the epoch is over whose clients may still wait for their inputs.
    fn epoch_is_over(&self) {}
}

/// Where requests come from, where they are answered, and where it is shown how their streams stand. It is
/// told of streams by the epochs that it was told of as a [`Chronicle`]. The requests that wait are those
/// that it gave and that aren't answered yet.
pub trait Door<R: Source, W: Sink>: Bell + Chronicle {
    /// The next request, if one is there. It doesn't wait.
    fn next(&mut self) -> Option<Request<R, W>>
        ensures input { IfSome result (λ r. IsInput r.spec (r.reader, r.writer)) }
        ensures given { IfSome result (λ r. (es : List EpochValue) (ws : List Waiting)
            → Self.stands self.old es ws
            → Self.stands self.new es (ws ++ waiting_of W.contents W.failures (length es) r ∷ [])) }
        ensures none { IfNone result ((es : List EpochValue) (ws : List Waiting)
            → Self.stands self.old es ws → Self.stands self.new es ws) };

    /// The door is told that the stream of a request that waits is admitted: it has its seat in the epoch that
    /// opens.
    fn admitted(&mut self, ticket: u64)
        requires admitted { (es : List EpochValue) × (before : List Waiting) × (w : Waiting)
            × (after : List Waiting) × Self.stands self.old es (before ++ w ∷ after) × (w.ticket ≡ ticket)
            × IsAdmitted Self.terms es (before ++ after) w.request.spec }
        ensures waits { (es : List EpochValue) (ws : List Waiting) → Self.stands self.old es ws
            → Self.stands self.new es ws };

    /// The door is told what came of a request that waits. The request waits no longer. The answer is the
    /// door's to take: what it leaves in its place is dropped.
    fn tell(&mut self, ticket: u64, answer: &mut Option<Answer<R, W>>)
        requires answer { (es : List EpochValue) × (before : List Waiting) × (w : Waiting)
            × (after : List Waiting) × Self.stands self.old es (before ++ w ∷ after) × (w.ticket ≡ ticket)
            × IsSomeAnd answer.old
            (IsAnswer W.contents W.failures Self.terms Self.times es w) }
        ensures waits_no_longer { (es : List EpochValue) (before : List Waiting) (w : Waiting)
            (after : List Waiting) → Self.stands self.old es (before ++ w ∷ after) → w.ticket ≡ ticket
            → Self.stands self.new es (before ++ after) };

    /// Whether it is to be shown how the streams stand.
    fn asks(&self) -> bool;

    /// The door is shown how the stream of a request that waits stands where an epoch ended. The streams that
    /// aren't over are shown, in the order of their numbers.
    fn show(&mut self, ticket: u64, standing: Standing)
        requires standing { (es : List EpochValue) × (before : List Waiting) × (w : Waiting)
            × (after : List Waiting) × Self.stands self.old es (before ++ w ∷ after) × (w.ticket ≡ ticket)
            × IsStanding Self.terms Self.times es w standing }
        ensures waits { (es : List EpochValue) (ws : List Waiting) → Self.stands self.old es ws
            → Self.stands self.new es ws };

    /// All were shown. The moment is that of their hub's clock, and `None` where no request waits.
    fn end_show(&mut self, moment: Option<u64>)
        requires clock { IfSome moment (λ at. (epoch : EpochValue) × (es : List EpochValue) × (w : Waiting)
            × (ws : List Waiting) × Self.stands self.old (epoch ∷ es) (w ∷ ws) × (at ≡ epoch.gone.clock)) }
        requires nobody { IfNone moment ((es : List EpochValue) × Self.stands self.old es []) }
        ensures waits { (es : List EpochValue) (ws : List Waiting) → Self.stands self.old es ws
            → Self.stands self.new es ws };
}
