// The list program on an input that is one byte too long.
#![tactic(auto)]

fn main() {
    list_run::run();
}
