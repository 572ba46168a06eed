// Prints what the library gives for figures and deals whose numbers are known, to be held against the stored text:
// single figures, refusals that no written sheet can get, the largest deals, pools of many rows and single blocks of
// them, and each example that an argument names. Of a file it prints the report, then the totals by portfolio; of a
// sheet then its conversion to the other unit; of a sheet with amendments what its opened pool is, at first and after
// each. Standard output is lent as `out`. A write that fails is passed over: what is missing shows where the text is
// compared.
#![tactic(auto)]

mod amendments;
mod blocks;
mod conversions;
mod edges;
mod examples;
mod figures;
mod reading;

// Prints everything in a fixed order. The handles are lent one by one, here and in all programs, each to what uses it.
fn main(rt: HostRuntime) {
    let out = &rt;
    figures::print_figures(out);
    edges::print_short_results(out);
    edges::print_lengths(out);
    edges::print_largest(out, 1250, 0, 0, 0);
    edges::print_largest(out, 100, 0, 0, 0);
    edges::print_largest(out, 100, 0, 1, 0);
    edges::print_largest(out, 100, 0, 0, 950000);
    edges::print_largest(out, 100, 0, 1, 1000000);
    edges::print_largest(out, 125000, 1, 0, 0);
    edges::print_largest(out, 3750, 1, 0, 950000);
    blocks::print_pools(out);
    blocks::print_single_blocks(out);
    conversions::print_outputs(out);
    examples::print_examples(out, &rt.stderr());
}
