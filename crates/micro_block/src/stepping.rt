//! How many steps lie between distances.

ghost use Rattle.std.specs.Prelude.{◌≡◌, ◌+◌, ◌-◌, ◌*◌, ◌^◌, ◌<◌, ◌≤◌, length, map, All, IfSome};
ghost use Rattle.raster_cells.specs.Step.{IsTwiceError};
ghost use Rattle.micro_block.specs.inside.Products.{IsProduct, rounded_steps};
ghost use Rattle.micro_block.specs.inside.Stepping.{AreStepped, IsRule, steps_above};

/// A product and a shift in place of a division, for numbers below a limit.
#[derive(Clone, Copy)]
pub(crate) struct Product {
    /// What is multiplied by.
    pub(crate) factor: u32,
    /// By how many bits the product is shifted.
    pub(crate) shift: u32,
    /// What the numbers are below.
    pub(crate) limit: u64,
}

/// How numbers of steps are found.
#[derive(Clone, Copy)]
pub(crate) enum Rule {
    /// By a subtraction: the step is 1.
    Subtract,
    /// By a shift: the step is a power of 2, and twice `half`.
    Shift {
        /// Half a step.
        half: u32,
        /// Of what power of 2 the step is.
        shift: u32,
    },
    /// By a product: the step is twice `half`.
    Multiply {
        /// Half a step.
        half: u32,
        /// What stands for a division by the step.
        product: Product,
    },
    /// By a division.
    Divide,
}

/// The product for a step, for numbers below 2^31, where there is one: for steps up to 2^31 there
/// is.
pub(crate) fn far_product(step: u64) -> Option<Product>
    requires { (0 < step) × (step ≤ 8589934592) }
    ensures product { IfSome result (λ p. IsProduct step p) }
    ensures limit { IfSome result (λ p. p.limit ≡ 2 ^ 31) }
{
    let digits = 64 - (step - 1).leading_zeros();
    if digits > 31 || step > 1 << digits {
        return None;
    }
    let factor = ((1 << (31 + digits)) + step - 1) / step;
    if factor > 4294967295 {
        return None;
    }
    Some(Product {
        factor: factor as u32,
        shift: 31 + digits,
        limit: 1 << 31,
    })
}

/// The product for a step, for numbers whose product with it is below 2^32. It takes a division of
/// numbers of 32 bits to make.
fn near_product(step: u64) -> Product
    requires { (2 ≤ step) × (step ≤ 8589934592) }
    ensures { IsProduct step result }
{
    let factor = 4294967295 / step + 1;
    Product {
        factor: factor as u32,
        shift: 32,
        limit: factor,
    }
}

/// The rule for a step that is twice `half` and no power of 2.
fn product_rule(half: u32, reach: u32) -> Rule
    requires half { 0 < half }
    ensures { IsRule (2 * half) reach result }
{
    let furthest = u64::from(reach) + u64::from(half);
    let step = 2 * u64::from(half);
    let near = near_product(step);
    if furthest < near.limit {
        return Rule::Multiply {
            half,
            product: near,
        };
    }
    match far_product(step) {
        Some(product) if furthest < product.limit => Rule::Multiply { half, product },
        _ => Rule::Divide,
    }
}

/// The rule for a step that is twice `half`.
fn even_rule(half: u32, reach: u32) -> Rule
    requires half { 0 < half }
    requires near { reach + half < 2 ^ 32 }
    ensures { IsRule (2 * half) reach result }
{
    let shift = half.trailing_zeros() + 1;
    if shift < 32 && 1 << shift == 2 * u64::from(half) {
        Rule::Shift { half, shift }
    } else {
        product_rule(half, reach)
    }
}

/// How numbers of steps are found of distances that are at most `reach` above the least.
pub(crate) fn rule_for(step: u64, reach: u32) -> Rule
    requires { IsTwiceError step }
    ensures { IsRule step reach result }
{
    if step == 1 {
        return Rule::Subtract;
    }
    let half = step / 2;
    if u64::from(reach) + half > 4294967295 {
        return Rule::Divide;
    }
    even_rule(half as u32, reach)
}

/// The number of steps of twice `half`, which is 2^shift.
fn shift_one(distance: u32, least: u32, half: u32, shift: u32) -> u32
    requires from { least ≤ distance }
    requires near { distance - least + half < 2 ^ 32 }
    requires shift { shift < 32 }
    requires step { 2 ^ shift ≡ 2 * half }
    ensures { result ≡ steps_above (2 * half) least distance }
{
    (distance - least + half) >> shift
}

/// The number of steps of twice `half`.
fn multiply_one(distance: u32, least: u32, half: u32, product: Product) -> u32
    requires from { least ≤ distance }
    requires near { distance - least + half < product.limit }
    requires step { IsProduct (2 * half) product }
    ensures { result ≡ steps_above (2 * half) least distance }
{
    ((u64::from(distance - least + half) * u64::from(product.factor)) >> product.shift) as u32
}

/// The number of steps of a distance of any size, rounded to the nearest, halves upwards.
pub(crate) fn round_steps(distance: u64, step: u64) -> u64
    requires far { distance ≤ 8589934592 }
    requires step { (0 < step) × (step ≤ 8589934592) }
    ensures { result ≡ rounded_steps step distance }
{
    (2 * distance + step) / (2 * step)
}

/// The number of steps, by a division.
fn divide_one(distance: u32, least: u32, step: u64) -> u32
    requires from { least ≤ distance }
    requires step { (0 < step) × (step ≤ 8589934592) }
    ensures { result ≡ steps_above step least distance }
{
    round_steps(u64::from(distance - least), step) as u32
}

/// The number of steps of one distance, rounded to the nearest, halves upwards.
#[inline(always)]
pub(crate) fn steps_at(distance: u32, least: u32, rule: Rule, step: u64) -> u32
    requires from { least ≤ distance }
    requires rule { IsRule step (distance - least) rule }
    requires step { (0 < step) × (step ≤ 8589934592) }
    ensures { result ≡ steps_above step least distance }
{
    match rule {
        Rule::Subtract => distance - least,
        Rule::Shift { half, shift } => shift_one(distance, least, half, shift),
        Rule::Multiply { half, product } => multiply_one(distance, least, half, product),
        Rule::Divide => divide_one(distance, least, step),
    }
}

/// Writes how far each distance is above the least.
fn subtract_each(distances: &[u32], least: u32, out: &mut [u32])
    requires lengths { length out.old ≡ length distances.now }
    requires from { All (λ d. least ≤ d) distances.now }
    ensures { out.new ≡ map (λ d. d - least) distances.now }
{
    for (i, distance) in distances.iter().enumerate() {
        out[i] = *distance - least;
    }
}

/// Writes the numbers of steps of twice `half`, which is 2^shift.
fn shift_each(distances: &[u32], least: u32, half: u32, shift: u32, out: &mut [u32])
    requires lengths { length out.old ≡ length distances.now }
    requires from { All (λ d. least ≤ d) distances.now }
    requires near { All (λ d. d - least + half < 2 ^ 32) distances.now }
    requires shift { shift < 32 }
    requires step { 2 ^ shift ≡ 2 * half }
    ensures { out.new ≡ map (steps_above (2 * half) least) distances.now }
{
    for (i, distance) in distances.iter().enumerate() {
        out[i] = shift_one(*distance, least, half, shift);
    }
}

/// Writes the numbers of steps of twice `half`.
fn multiply_each(distances: &[u32], least: u32, half: u32, product: Product, out: &mut [u32])
    requires lengths { length out.old ≡ length distances.now }
    requires from { All (λ d. least ≤ d) distances.now }
    requires near { All (λ d. d - least + half < product.limit) distances.now }
    requires step { IsProduct (2 * half) product }
    ensures { out.new ≡ map (steps_above (2 * half) least) distances.now }
{
    for (i, distance) in distances.iter().enumerate() {
        out[i] = multiply_one(*distance, least, half, product);
    }
}

/// Writes the numbers of steps, by a division for each.
fn divide_each(distances: &[u32], least: u32, step: u64, out: &mut [u32])
    requires lengths { length out.old ≡ length distances.now }
    requires from { All (λ d. least ≤ d) distances.now }
    requires step { (0 < step) × (step ≤ 8589934592) }
    ensures { out.new ≡ map (steps_above step least) distances.now }
{
    for (i, distance) in distances.iter().enumerate() {
        out[i] = divide_one(*distance, least, step);
    }
}

/// Writes the number of steps of each distance, rounded to the nearest, halves upwards.
pub(crate) fn steps_each(distances: &[u32], least: u32, rule: Rule, step: u64, out: &mut [u32])
    requires lengths { length out.old ≡ length distances.now }
    requires stepped { AreStepped step least rule distances.now }
    ensures { out.new ≡ map (steps_above step least) distances.now }
{
    match rule {
        Rule::Subtract => subtract_each(distances, least, out),
        Rule::Shift { half, shift } => shift_each(distances, least, half, shift, out),
        Rule::Multiply { half, product } => multiply_each(distances, least, half, product, out),
        Rule::Divide => divide_each(distances, least, step, out),
    }
}
