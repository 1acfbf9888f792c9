// Lists the report that standard input begins with.
#![tactic(auto)]

use std::io;

fn main(rt: HostRuntime) -> io::Result<()> {
    lister_lines::list_input(&mut rt.stdin(), &mut io::writer(&rt))
}
