// The list program.
#![tactic(auto)]

fn main() {
    list_run::run();
}
