// VCPUs and frames: adding VCPUs, setting and getting bases and regions, INIT, and where each redistributor lies.
// A guest by value under `Kept g`, and attribute, width and value apart: the contracts that the crates above cite.
#![tactic(auto)]

pub mod bases;
pub mod init;
pub mod vcpus;
