// The definitions that several crates speak of, and no code: causes, records and their one spelling,
// the text of scripts, whole scripts with their lines and lists, and what a command comes to. They
// stand in specs/, in this order: Causes, Records, ScriptText, ScriptLines, Commands; the script
// machine, which stands on them, is nb_engine's. docs/DEFINITIONS.md tells each in plain words. proofs/
// has laws about them, which the crates above cite.
#![tactic(auto)]
