//! What follows from the order in which sockets are listed.

ghost use Rattle.socket_list.specs.Laws.{ListsAll, ListsAsOne, ListsInOrder, StaysListed};

/// Cards are listed each as often as it is there, in an order that doesn't hang on the one that they had.
pub fn listing()
    ensures all { ListsAll }
    ensures one { ListsAsOne }
    ensures order { ListsInOrder }
    ensures stays { StaysListed }
{}
