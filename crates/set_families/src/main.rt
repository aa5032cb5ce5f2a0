// Prints a line for each of the 256 sets of corners, from 0: the set, whose bit n is corner n, and the case and the
// configuration of its family. What `stdout` holds is made by oracle/choice.sh from CASES, the source's own table.
#![tactic(auto)]

use signs::Family;
use std::io;

fn main(rt: HostRuntime) -> io::Result<()> {
    for set in 0..=u8::MAX {
        let Family {
            case,
            configuration,
        } = signs::family_of(set);
        println!(rt; "{set} {case} {configuration}")?;
    }
    Ok(())
}
