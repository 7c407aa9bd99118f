// What is true of the definitions, for whoever reads the contracts.
ghost use Rattle.matching.specs.Matches.{MatchesOnce, MatchValue};
ghost use Rattle.matching.specs.Parts.{PartsAreRoots};
ghost use Rattle.matching.specs.Subtrees.{OneSubtreeEach};

// One shape matches one tree in at most one way.
pub fn matches_once()
    ensures { MatchesOnce }
{}

// Where a shape matches a tree, its value over the values of the subtrees is the tree's.
pub fn match_value()
    ensures { MatchValue }
{}

// Every node of a granted statement is the root of exactly one subtree.
pub fn one_subtree_each()
    ensures { OneSubtreeEach }
{}

// The left part of a node is the root of its left subtree, and the node before it is the root of the right or only one.
pub fn parts_are_roots()
    ensures { PartsAreRoots }
{}
