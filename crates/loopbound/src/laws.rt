//! What bounds along paths are.

ghost use Rattle.std.specs.Prelude.{◌≡◌, ◌+◌, ◌≤◌, List, ℕ, IsSome, Contains};
ghost use Rattle.loopbound.specs.declared.graph.Bounds.{Bounds};
ghost use Rattle.loopbound.specs.declared.graph.Loop.{Loop};
ghost use Rattle.loopbound.specs.declared.graph.Step.{Step};
ghost use Rattle.loopbound.specs.declared.graph.TimedLoop.{TimedLoop};
ghost use Rattle.loopbound.specs.declared.graph.Side.{Side};
ghost use Rattle.loopbound.specs.Path.{Path, Within, Exactly, Shares, AreBounds};
ghost use Rattle.loopbound.specs.Order.{IsLong, LongPath};
ghost use Rattle.loopbound.specs.Table.{Labels, Fits, Tight, Nested, Running, Bounded, shapes, side_of, taken};

/// Bounds that each step keeps are bounds of each path: where a loop has turned k times in a path, the sum has k of its turns.
pub fn soundness()
    ensures { (steps : List Step) (loops : List TimedLoop) (label : Labels) (entry w : ℕ) (k : Loop → ℕ) (sum : ℕ)
        → Fits (Contains steps) loops label entry
        → Path Within (Contains steps) (shapes loops) entry w k sum
        → Bounded loops label w k sum }
{}

/// Where one step meets each bound, some path meets it: at a known word, with any counts that a path can have there, one whose steps all
/// take their least cycles has the least sum, and one whose steps take their most the greatest.
pub fn exactness()
    ensures { (steps : List Step) (loops : List TimedLoop) (label : Labels) (entry : ℕ) (side : Side) (w : ℕ) (k : Loop → ℕ)
        → Nested (Contains steps) (shapes loops) entry → Fits (Contains steps) loops label entry
        → Tight (Contains steps) loops label entry side
        → IsSome (label w) → Running loops w k
        → Path (Exactly side) (Contains steps) (shapes loops) entry w k (side_of side (label w) + taken side k loops) }
{}

/// In a table that fits and is tight on both sides, the label of a word has the least and the greatest sum there in first turns.
pub fn exact_labels()
    ensures { (steps : List Step) (loops : List TimedLoop) (label : Labels) (entry w : ℕ) (b : Bounds)
        → ((s : Step) → Contains steps s → s.cost.least ≤ s.cost.most)
        → Nested (Contains steps) (shapes loops) entry → Fits (Contains steps) loops label entry
        → Tight (Contains steps) loops label entry Side.Least → Tight (Contains steps) loops label entry Side.Most
        → label w ≡ Some b → AreBounds (Shares (Contains steps) (shapes loops) entry w) b }
{}

/// Where a pass finds a step with a sum above the limit, some path has such a sum.
pub fn long_path()
    ensures { (steps : List Step) (loops : List Loop) (entry limit : ℕ)
        → Nested (Contains steps) loops entry → IsLong steps loops entry limit → LongPath steps loops entry limit }
{}
