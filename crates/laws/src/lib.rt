// Laws about tests, numbers and lists that every other crate cites. There is no function here: definitions stand in specs/, laws in proofs/.
#![tactic(auto)]
