// Sums of rows with weights.
ghost use Rattle.std.specs.Prelude.{◌≡◌, ◌≢◌, ◌++◌, ◌∷◌, [], ℕ, ℤ, pos, ◌+ℤ◌, ◌*ℤ◌, ◌<ℤ◌, IfOk, OnOk, IsTrue};
ghost use Rattle.cert_linear.specs.Sums.{product_at, total, Stands, RowHolds, SumHolds};

use crate::rows::{LinearRow, Product, SumSign};
use cert_terms::{LineFault, LineRefusal};
use std::alloc::Global;
use vb_base::Memory;
use vb_value::{int_add, int_mul};

/// The sum, unless it is too large.
fn added(a: i128, b: i128) -> Result<i128, LineFault>
    ensures { IfOk result (λ z. z ≡ a +ℤ b) }
{
    match int_add(a, b) {
        Ok(sum) => Ok(sum),
        Err(_) => Err(LineFault::Refused(LineRefusal::Large)),
    }
}

/// The product, unless it is too large.
fn times(a: i128, b: i128) -> Result<i128, LineFault>
    ensures { IfOk result (λ z. z ≡ a *ℤ b) }
{
    match int_mul(a, b) {
        Ok(product) => Ok(product),
        Err(_) => Err(LineFault::Refused(LineRefusal::Large)),
    }
}

/// How the sum of two that stand to 0 like this stands to 0, the second with a weight, if that is known.
fn joined(left: SumSign, right: SumSign, weight: i128) -> Result<SumSign, LineFault>
    ensures { IfOk result (λ sign. (x y : ℤ) → Stands left x → Stands right y → Stands sign (x +ℤ weight *ℤ y)) }
{
    match (left, right) {
        (left, SumSign::Equal) => Ok(left),
        (_, _) if weight <= 0 => Err(LineFault::Refused(LineRefusal::Sum)),
        (SumSign::Equal, right) => Ok(right),
        (SumSign::AtMost, SumSign::AtMost) => Ok(SumSign::AtMost),
        (SumSign::AtMost | SumSign::Below, SumSign::AtMost | SumSign::Below) => Ok(SumSign::Below),
        _ => Err(LineFault::Refused(LineRefusal::Sum)),
    }
}

/// A sum of rows with weights: how its products and its number together stand to 0.
#[derive(Drop)]
pub(crate) struct Sum {
    products: Vec<Product>,
    number: i128,
    sign: SumSign,
}

/// Puts a product behind the others.
fn put(products: &mut Vec<Product>, product: Product) -> Result<(), Memory>
    ensures { OnOk result (products.new.items ≡ products.old.items ++ product ∷ []) }
{
    products.push(product)?;
    Ok(())
}

/// Adds a product with a weight.
fn push(products: &mut Vec<Product>, weight: i128, product: Product) -> Result<(), LineFault>
    ensures { OnOk result ((x : ℕ → ℤ) → total x products.new.items ≡ total x products.old.items +ℤ weight *ℤ product_at x product) }
{
    let factor = times(weight, product.factor)?;
    put(
        products,
        Product {
            name: product.name,
            factor,
        },
    )?;
    Ok(())
}

/// Adds up the products of each name, which stand one behind the other, and tells whether nothing is left of any.
fn balances(products: &[Product]) -> Result<bool, LineFault>
    ensures { IfOk result (λ p. IsTrue p → (x : ℕ → ℤ) → total x products.now ≡ pos 0) }
{
    let mut name = 0;
    let mut left = 0;
    for product in products {
        if product.name != name {
            if left != 0 {
                return Ok(false);
            }
            name = product.name;
        }
        left = added(left, product.factor)?;
    }
    Ok(left == 0)
}

/// Tells whether no name is left in the sum of the products.
fn cancels(products: &mut Vec<Product>) -> Result<bool, LineFault>
    ensures { IfOk result (λ p. IsTrue p → (x : ℕ → ℤ) → total x products.old.items ≡ pos 0) }
{
    products.sort_unstable_by_key(|product| product.name);
    balances(products)
}

impl Sum {
    /// The empty sum, which is 0.
    pub(crate) fn new(alloc: Global) -> Sum
        ensures { (x : ℕ → ℤ) (d : ℤ) → SumHolds x d result.products.items result.number result.sign }
    {
        Sum {
            products: Vec::new(alloc),
            number: 0,
            sign: SumSign::Equal,
        }
    }

    /// Adds a row with a weight.
    pub(crate) fn add(&mut self, weight: i128, row: &LinearRow) -> Result<(), LineFault>
        ensures { OnOk result ((x : ℕ → ℤ) (d : ℤ) → SumHolds x d self.old.products.items self.old.number self.old.sign → RowHolds x d row.now → SumHolds x d self.new.products.items self.new.number self.new.sign) }
    {
        self.sign = joined(self.sign, row.sign, weight)?;
        push(&mut self.products, weight, row.first)?;
        push(&mut self.products, weight, row.second)?;
        push(&mut self.products, weight, row.third)?;
        self.number = added(self.number, times(weight, row.number)?)?;
        Ok(())
    }

    /// Refuses a sum that may stand to 0 as it says.
    pub(crate) fn contradict(&mut self) -> Result<(), LineFault>
        ensures { OnOk result ((x : ℕ → ℤ) (d : ℤ) → pos 0 <ℤ d → SumHolds x d self.old.products.items self.old.number self.old.sign → ⊥) }
    {
        let stands = match self.sign {
            SumSign::Equal => self.number == 0,
            SumSign::AtMost => self.number <= 0,
            SumSign::Below => self.number < 0,
            SumSign::Other => self.number != 0,
        };
        if stands || !cancels(&mut self.products)? {
            return Err(LineFault::Refused(LineRefusal::Sum));
        }
        Ok(())
    }
}
