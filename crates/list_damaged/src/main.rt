// The list program on the worked book's tree of layout 1 with a wrong gap.
#![tactic(auto)]

fn main() {
    list_run::run();
}
