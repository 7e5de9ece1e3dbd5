//! Laws of exchanges, proved from the definitions.
ghost use Rattle.std.specs.Prelude.{◌≡◌, ◌+◌, ◌≤◌, ℕ, false, List, length, Some, None, slice_get};
ghost use Rattle.vclock.specs.declared.format.Format.{Format};
ghost use Rattle.vclock.specs.declared.refusal.Refusal.TheVariants as refusals;
ghost use Rattle.tree_nodes.specs.Nodes.{Node, node_count};
ghost use Rattle.walk_messages.specs.declared.message.Answer.{Answer};
ghost use Rattle.walk_messages.specs.declared.message.Offer.{Offer};
ghost use Rattle.snapshot.specs.RowMaps.{RowMap};
ghost use Rattle.sync_session.specs.Differing.{differ};
ghost use Rattle.sync_session.specs.Walks.{Walk};
ghost use Rattle.sync_session.specs.declared.state.SessionState.TheVariants as states;
ghost use Rattle.range_state.specs.State.{State};
ghost use Rattle.range_state.specs.Records.{place_of};
ghost use Rattle.range_state.specs.Sessions.{IsLeafFault};
ghost use Rattle.range_state.specs.declared.«record».Record.{Record};
ghost use Rattle.exchange.specs.declared.bounds.Bounds.{Bounds};
ghost use Rattle.exchange.specs.declared.exchange.Exchange.{Exchange};
ghost use Rattle.exchange.specs.declared.report.End.TheVariants as ends;
ghost use Rattle.exchange.specs.declared.verdict.Verdict.{Verdict};
ghost use Rattle.exchange.specs.declared.verdict.Verdict.TheVariants as verdicts;
ghost use Rattle.exchange.specs.Standings.{standing_of, is_sent, was_left};
ghost use Rattle.exchange.specs.Courses.{Course};
ghost use Rattle.exchange.specs.Asks.{next_in};
ghost use Rattle.exchange.specs.Outlines.{Outlines, unsent, outlining_of, outline_for};
ghost use Rattle.exchange.specs.OutlineSteps.{OutlineStep, MayOutlineAll, sent_in};
ghost use Rattle.exchange.specs.declared.outlining.Outlining.TheVariants as outlining;
ghost use Rattle.exchange.specs.Exchanges.{IsJudged};
ghost use Rattle.exchange.specs.Steps.{Step, MayAll, after_all, at_start};
ghost use Rattle.exchange.specs.TruePartners.{AreTrueSteps, AsksFew};

/// Whatever a partner sends, and whatever the owner calls, the number of asks that an exchange counts is at most the
/// number of the tree's nodes plus the bad answers and lost asks that the bounds allow. An outline that brought no text
/// isn't counted.
pub fn asks_are_bounded()
    ensures { (offer : Offer) (bounds : Bounds) (format : Format) (steps : List Step)
        → MayAll (at_start offer bounds format) steps
        → (after_all (at_start offer bounds format) steps).tally.asks ≤ node_count format + bounds.bad + bounds.lost }
{}

/// With a true partner, an exchange asks only for nodes at which the trees differ: the number of asks that it counts is
/// at most the sum of such nodes, bad answers, lost asks, and answers that exceeded the capacity.
pub fn asks_of_a_true_partner_are_few()
    ensures { (offer : Offer) (bounds : Bounds) (own other : RowMap) (steps : List Step)
        → MayAll (at_start offer bounds own.format) steps → AreTrueSteps own other steps
        → AsksFew (length (differ own other)) (after_all (at_start offer bounds own.format) steps).tally }
{}

/// The node of the next ask has no ask in progress, and wasn't left.
pub fn no_node_is_in_flight_twice()
    ensures { (x : Course) (w : Walk) (n : Node) (bytes : ℕ) → next_in x w ≡ Some (n, bytes)
        → (is_sent (standing_of x.standings n) ≡ false) × (was_left (standing_of x.standings n) ≡ false) }
{}

/// An outline is sent at most once for a node. Whatever the outlines bring, no more are sent than the tree has nodes.
pub fn no_node_is_outlined_twice()
    ensures first { (o : Outlines) (x : Course) (w : Walk) (n : Node) (room : ℕ) (bytes : List ℕ)
        → outline_for o x w n room ≡ Some bytes → outlining_of o n ≡ Some outlining.Never }
    ensures few { (format : Format) (steps : List OutlineStep) → MayOutlineAll (unsent format) steps
        → sent_in steps ≤ node_count format }
{}

/// A leaf is left only for its own true text with a crowded key.
pub fn a_leaf_is_left_for_its_own_text()
    ensures { (x y : Exchange) (s t : State) (seat : ℕ) (r : Record) (a : Answer)
        → slice_get s.records (place_of x.session s.records) ≡ Some r → IsJudged x s seat r a verdicts.Left y t
        → IsLeafFault s seat r (record { node = a.node; text = a.text }) refusals.Crowded }
{}

/// An exchange that an answer finishes has a finished session.
pub fn a_finished_exchange_has_a_finished_session()
    ensures { (x y : Exchange) (s t : State) (seat : ℕ) (r : Record) (a : Answer) (v : Verdict)
        → slice_get s.records (place_of x.session s.records) ≡ Some r → IsJudged x s seat r a v y t → x.course.end ≡ None
        → y.course.end ≡ Some ends.Finished
        → (u : Record) × (slice_get t.records (place_of x.session s.records) ≡ Some u)
        × (u.session.state ≡ states.Finished) }
{}
