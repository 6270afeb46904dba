use qf_base::List;

/// The sum of factors times variables is at least `least`. A variable is a number from 1. In the inequalities that are
/// worked with the variables differ and no factor is 0.
#[derive(Drop)]
pub struct Inequality {
    /// Factors and their variables.
    pub terms: List<(i64, u32)>,
    pub least: i64,
}

/// Inequalities over the variables 1 to `vars`, and which of these are selectors. Inequalities count from 1.
#[derive(Drop)]
pub struct System {
    pub inequalities: List<Inequality>,
    pub vars: u32,
    pub selectors: List<u32>,
}
