#![tactic(auto)]

// Laws of tests and lists that every crate may cite: every definition and law stands in specs/.
