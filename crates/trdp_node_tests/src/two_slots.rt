//! The configuration that most tests have.

/// Two slots, each of four publishers, four subscriptions, one requester, two listeners, two
/// callers and one replier. Two datasets: a count and that many 16-bit numbers; a signed number, a
/// time of 48 bits and a value of the first one.
pub static CONFIG: &[u8] = b"\
[node]
address = \"10.0.0.1\"
[[slot]]
publishers = 4
subscriptions = 4
requesters = 1
listeners = 2
callers = 2
repliers = 1
[[slot]]
publishers = 4
subscriptions = 4
requesters = 1
listeners = 2
callers = 2
repliers = 1
[[dataset]]
id = 1001
element = [{ type = \"UINT8\" }, { type = \"UINT16\", size = 0 }]
[[dataset]]
id = 1002
element = [{ type = \"INT16\" }, { type = 15 }, { type = 1001 }]
";
