//! Worked recordings, as trace texts.

/// No operation.
pub const EMPTY: &str = "trace 1\nreplicas 1\n";

/// Two replicas read two elements in opposite orders.
pub const OPPOSITE_PAIR: &str =
    "trace 1\nreplicas 2\n0 ins a 0 : a\n1 ins b 0 : b\n0 recv 1 1\n1 recv 0 1\n0 read : a b\n1 read : b a\n";

/// Two elements, read only with the later operation's first.
pub const READ_THE_OTHER_WAY: &str =
    "trace 1\nreplicas 2\n0 ins a 0 : a\n1 ins b 0 : b\n0 recv 1 1\n0 read : b a\n";

/// x before b, b before a, a before x, each shown by one response. Any two of these fit one order.
pub const THREE_WAY_CYCLE: &str =
    "trace 1\nreplicas 3\n0 ins x 0 : x\n1 recv 0 1\n2 recv 0 1\n1 ins a 0 : a x\n2 ins b 1 : x b\n0 del x :\n0 recv 1 1\n0 recv 2 1\n0 read : b a\n";

/// A response shows a before c past b, so the cycle of three is no cycle of neighbours alone.
pub const PAST_A_NEIGHBOUR: &str =
    "trace 1\nreplicas 7\n0 ins a 0 : a\n1 ins b 0 : b\n2 ins c 0 : c\n3 ins d 0 : d\n4 recv 0 1\n4 recv 1 1\n4 recv 2 1\n4 read : a b c\n5 recv 2 1\n5 recv 3 1\n5 read : c d\n6 recv 3 1\n6 recv 0 1\n6 read : d a\n";

/// A cycle of four elements, and no shorter one.
pub const RING_OF_FOUR: &str =
    "trace 1\nreplicas 6\n0 ins a 0 : a\n1 ins b 0 : b\n2 recv 0 1\n2 recv 1 1\n2 read : a b\n3 recv 1 1\n3 ins c 1 : b c\n4 recv 3 1\n4 del b : c\n4 ins d 1 : c d\n5 recv 4 2\n5 del c : d\n5 recv 0 1\n5 read : d a\n";
