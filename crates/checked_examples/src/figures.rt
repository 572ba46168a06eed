// Single figures: tranche maturities, raw weights of the formula, entries of the decay table. The reason for each
// number of the stored text stands beside it; values are cut after six decimals.
use formula::NoRawWeight;

// Writes the maturity in fifths of a month that a number of months counts as.
fn print_maturity<O: Print>(out: &O, months: u64) {
    let fifths = ratings::maturity_fifths(months);
    let _ = println!(out; "maturity of months {months}: {fifths}");
}

// Writes the raw weight of the formula, its low number and its high one.
fn print_raw_weight<O: Print>(out: &O, a: u64, d: u64, k: u64, p: u64) {
    let _ = print!(out; "raw weight at A {a} D {d} K {k} p {p}: ");
    let _ = match formula::raw_weight(a, d, k, p) {
        Ok(e) => println!(out; "{} to {}", e.low, e.high),
        Err(NoRawWeight::NoThickness) => println!(out; "no thickness"),
        Err(NoRawWeight::OutsideLimits) => println!(out; "outside limits"),
    };
}

// Writes an entry of the decay table.
fn print_decay<O: Print>(out: &O, n: u64) {
    let entry = formula::decay_entry(n);
    let _ = println!(out; "decay entry {n}: {entry}");
}

// Writes the maturities that some numbers of months count as: 4 × months + 12, held within 60 and 300.
fn print_maturities<O: Print>(out: &O) {
    print_maturity(out, 1); // 16, held at 60
    print_maturity(out, 12); // 60
    print_maturity(out, 36); // 156
    print_maturity(out, 71); // 296
    print_maturity(out, 72); // 300; cut to five years before the 80% rule it would be 252
    print_maturity(out, 1200); // 4,812, held at 300
}

// Writes raw weights that the rules settle: 125,000 where D is not above K, 0 where K is 0, both numbers alike.
fn print_settled_weights<O: Print>(out: &O) {
    // A = D = K: D is not above K; misread: divides by zero.
    print_raw_weight(out, 100000, 100000, 100000, 1000000);
    // D = K.
    print_raw_weight(out, 50000, 100000, 100000, 1000000);
    // K = 0 and D = 0: D is not above K, which is tested first; misread: 0, or 0 / 0.
    print_raw_weight(out, 0, 0, 0, 1000000);
    // K = 0 and D above 0.
    print_raw_weight(out, 0, 1000000, 0, 1000000);
    // K = 0 and D above 0, parameter 1.5.
    print_raw_weight(out, 0, 1, 0, 1500000);
}

// Writes raw weights of the open cases that 01 names and of published examples: the exact value, rounded up, is the
// lower of the two that pass above. From below the exact value rounded down passes, and where the value is less than a
// half above that, so does one less.
fn print_published_weights<O: Print>(out: &O) {
    // About 79015.069853; 79,016 or 79,017 passes. 125,000 × (1 - e^(-1)); misread (e^(-u/s) as 0): 125,000.
    print_raw_weight(out, 100000, 200000, 100000, 1000000);
    // About 111683.667535; 111,684 or 111,685 passes. 125,000 × (0.5 + 1 - e^(-0.5)).
    print_raw_weight(out, 50000, 150000, 100000, 1000000);
    // About 25145.200828; 25,146 or 25,147 passes. Source document 002, figure 1: about 251%.
    print_raw_weight(out, 100000, 300000, 68000, 1000000);
    // About 18737.922459; 18,738 or 18,739 passes. Source document 002, two points up: about 187%.
    print_raw_weight(out, 120000, 320000, 68000, 1000000);
    // About 33743.395304; 33,744 or 33,745 passes. Source document 002, two points down: 337%.
    print_raw_weight(out, 80000, 280000, 68000, 1000000);
    // About 19999.898699; 20,000 or 20,001 passes. Source document 002: surcharge of 100% on loans of 100%.
    print_raw_weight(out, 0, 1000000, 80000, 1000000);
    // About 24992.977362; 24,993 or 24,994 passes. Source document 002: surcharge of 150% at parameter 1.5.
    print_raw_weight(out, 0, 1000000, 80000, 1500000);
    // About 102007.534926; 102,008 or 102,009 passes. Source document 002: 580% above 15,000 (6.8005 times).
    print_raw_weight(out, 0, 1000000, 500000, 1000000);
    // About 108117.145090; 108,118 or 108,119 passes. Source document 002: 621% above 15,000 (7.2078 times).
    print_raw_weight(out, 0, 1000000, 500000, 1500000);
}

// Writes raw weights at edges of the formula.
fn print_edge_weights<O: Print>(out: &O) {
    // About 5492.099540; 5,493 or 5,494 passes. l/s = 50/16: 2^32 × e^(-50/16) = 188,707,692.999. With the whole part
    // 188,707,692 and nothing added back the value is 5,487.447, so 5,488: too low.
    print_raw_weight(out, 660000, 660001, 160000, 1000000);
    // About 6889.371410; 6,890 or 6,891 passes. 625,000 × (e^(-2.8) - e^(-3)). At k = 4 the lower end is about -983: a
    // lower end can be below 0.
    print_raw_weight(out, 190000, 200000, 50000, 1000000);
    // About 0.250000; 1 or 2 passes. 125,000 × (1 + 1 - e^(-999,999)) / 10^6, that is 0.25 less a trace.
    print_raw_weight(out, 0, 1000000, 1, 1000000);
    // About 0.000000; 1 or 2 passes. 125,000 × (e^(-999,998) - e^(-999,999)): above 0, so 1 and never 0.
    print_raw_weight(out, 999999, 1000000, 1, 1000000);
    // About 79015.069853; 79,016 or 79,017 passes. The smallest charge: 125,000 × (1 - e^(-1)).
    print_raw_weight(out, 1, 2, 1, 1000000);
    // About 124999.999999; 125,000 passes. Just below 125,000: one number passes, for 125,001 is above the top.
    print_raw_weight(out, 0, 1000000, 999999, 1000000);
    // About 124999.958333; 125,000 passes. The same at the thinnest tranche and parameter 1.5.
    print_raw_weight(out, 999999, 1000000, 999999, 1500000);
    // About 64177.182663; 64,178 or 64,179 passes. A thin tranche at the top, parameter 1.5: l/s = 499,999 / 750,000.
    print_raw_weight(out, 999999, 1000000, 500000, 1500000);
}

// Writes raw weights at parameter 0.5, that of an STC deal: settled ones, published ones and edges.
fn print_stc_weights<O: Print>(out: &O) {
    // D = K.
    print_raw_weight(out, 50000, 100000, 100000, 500000);
    // K = 0 and D above 0.
    print_raw_weight(out, 0, 1000000, 0, 500000);
    // About 54041.544797; 54,042 or 54,043 passes. 62,500 × (1 - e^(-2)).
    print_raw_weight(out, 100000, 200000, 100000, 500000);
    // About 102007.534926; 102,008 or 102,009 passes. 62,500 × (1 + 1 - e^(-1)).
    print_raw_weight(out, 50000, 150000, 100000, 500000);
    // About 29999.724635; 30,000 or 30,001 passes. Source document 002: surcharge of 50%, on loans of 200%.
    print_raw_weight(out, 0, 1000000, 160000, 500000);
    // About 89520.772398; 89,521 or 89,522 passes. Source document 002: 497% above 15,000 (5.9681 times).
    print_raw_weight(out, 0, 1000000, 500000, 500000);
    // About 8267.964212; 8,268 or 8,269 passes. The tranche of source document 002's figure 1 at parameter 0.5.
    print_raw_weight(out, 100000, 300000, 68000, 500000);
    // About 4591.253219; 4,592 or 4,593 passes. Source document 002, two points up: about 44% less.
    print_raw_weight(out, 120000, 320000, 68000, 500000);
    // About 14889.013731; 14,890 or 14,891 passes. Source document 002, two points down: about 80% more.
    print_raw_weight(out, 80000, 280000, 68000, 500000);
    // About 241.305258; 242 or 243 passes. A thin tranche high above the charge: l/s = 100/16.
    print_raw_weight(out, 660000, 660001, 160000, 500000);
    // About 54041.544797; 54,042 or 54,043 passes. The smallest charge, s half a millionth: 62,500 × (1 - e^(-2)).
    print_raw_weight(out, 1, 2, 1, 500000);
    // About 0.000000; 1 or 2 passes. 62,500 × (e^(-1,999,996) - e^(-1,999,998)): above 0, so 1 and never 0.
    print_raw_weight(out, 999999, 1000000, 1, 500000);
    // About 124999.874999; 125,000 passes. Just below 125,000 at the thinnest tranche: one number passes.
    print_raw_weight(out, 999999, 1000000, 999999, 500000);
}

// Writes entries of the decay table, the whole parts of 2^32 × e^(−n/16).
fn print_decays<O: Print>(out: &O) {
    print_decay(out, 0); // 2^32
    print_decay(out, 1); // 2^32 × e^(-1/16) = 4,034,748,382.219
    print_decay(out, 16); // 2^32 / e = 1,580,030,168.702
    print_decay(out, 50); // 2^32 × e^(-50/16) = 188,707,692.999
    print_decay(out, 354); // 2^32 × e^(-354/16) = 1.057, whole part 1
    print_decay(out, 355); // 2^32 × e^(-355/16) = 0.993, whole part 0: from here on 0
}

// Writes all figures.
pub(crate) fn print_figures<O: Print>(out: &O) {
    print_maturities(out);
    print_settled_weights(out);
    print_published_weights(out);
    print_edge_weights(out);
    print_stc_weights(out);
    print_decays(out);
}
