// A list that may have one item alone.
ghost use Rattle.std.specs.Prelude.{[], ◌∷◌, ◌≡◌, IfErr, IfOk, vec_len};

/// The item that stands alone, or the items where there is another number of them.
pub fn alone<T: Drop>(items: Vec<T>) -> Result<T, Vec<T>>
    ensures one { IfOk result (λ x. items.items ≡ x ∷ []) }
    ensures same { IfErr result (λ v. v ≡ items) }
    ensures other { IfErr result (λ _. vec_len items ≡ 1 → ⊥) }
{
    if items.len() != 1 {
        return Err(items);
    }
    let mut items = items;
    match items.pop() {
        Some(item) => Ok(item),
        None => Err(items),
    }
}
