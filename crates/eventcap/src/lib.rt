// Laws: ITTs once had a cap on the distances between events. It changed nothing: what a save leaves, what a restore reads and what bytes
// describe are the same without it.
#![tactic(auto)]
