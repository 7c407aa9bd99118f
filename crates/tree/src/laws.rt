// What is true of the definitions, for whoever reads the contracts.
ghost use Rattle.tree.specs.Statements.{OneTreeAtMost, GrantedIsTree};

// A list of nodes is the postfix of at most one tree.
pub fn one_tree_at_most()
    ensures { OneTreeAtMost }
{}

// A statement is granted exactly if its nodes are the postfix of a tree of 1 to 256 nodes and no variable, the target
// too, is over 63.
pub fn granted_is_tree()
    ensures { GrantedIsTree }
{}
