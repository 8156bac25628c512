// Laws that every other crate cites; the laws are in specs/. No code.
#![tactic(auto)]
