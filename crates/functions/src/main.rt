// Lists the functions of a section that comes on standard input. A byte more than is listed is read, so that more are refused.
// Where a read fails, a line on standard error says why, and nothing is listed.
#![tactic(auto)]

fn main(rt: HostRuntime) {
    let mut input = [0u8; 65537];
    match streams::read_full(&mut rt.reader(), &mut input) {
        Ok(n) => {
            lister::list(&rt, &input[..n]);
        }
        Err(error) => streams::say(&rt, "standard input", &error),
    }
}
