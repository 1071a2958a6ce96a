// Prints the list of msg.txt by the dictionary dict.txt (document 01, 'One list in full').
#![tactic(auto)]

use std::io;

fn main(rt: HostRuntime) -> io::Result<()> {
    list_files::print::print_list(&rt, b"dict.txt", b"msg.txt")
}
