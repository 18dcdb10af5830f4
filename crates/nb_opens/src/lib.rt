// What the objects of an open do on a graph on which nothing else lives: definitions and lemmas, no code that runs. Of
// an open that fetches a file they are a Fetch and the Tftp plugged to it (RFC 1350; specs/Pairs.antt), of one that asks
// and is answered a Resolver (RFC 1035), a Dhcp (RFC 2131) or a Ping (RFC 792) alone (specs/Alones.antt). For each call
// they say what the outside is told, in order (specs/Notices.antt, AloneNotices.antt), and where the core is then, in
// terms of its history. nb_chains says its calls in these words, of the graph of a chain's own objects. Begin with
// specs/Notices.antt, then specs/Pairs.antt.
#![tactic(auto)]
