// The program `drawtrack`: a line of settings and a worklist on standard input; the messages of
// each draw, and then the results or the line of a refusal, on standard output. All of it is the
// run of crate `drawtrack_run`, whose answer is dropped. library/drawtrack has the same run under a
// `main` of C, which returns it.

#![tactic(auto)]

fn main(rt: HostRuntime) {
    drawtrack_run::drawtrack_run(&mut rt.stdin(), &mut rt.stdout(), &mut rt.stderr());
}
