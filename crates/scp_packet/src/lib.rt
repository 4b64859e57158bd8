// SCP packets: return codes, and the tests of READ and WRITE.
#![tactic(auto)]

pub mod packet; // return codes, and the tests of READ and WRITE
