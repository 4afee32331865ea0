// The state of the numbering of a block: the numbers of names, the homes of numbers, the table of numbered values and K, with the methods
// that see an argument, give and take a number, and save a home.
#![tactic(auto)]

ghost use Rattle.std.specs.Prelude.{◌≡◌, ◌≢◌, ◌+◌, ◌<◌, ◌≤◌, map, IfSome};
ghost use Rattle.std.proofs.Math.Option.{some};
ghost use Rattle.arith.specs.declared.One.TheVariants.{Id};
ghost use Rattle.arith.specs.Operation.{one};
ghost use Rattle.record.specs.Record.{nm, Instr};
ghost use Rattle.numbering.specs.declared.ValNum.{ValNum};
ghost use Rattle.numbering.specs.State.{start, new_number, update_env, see, gen_new_vals, number_of, known};
ghost use Rattle.numbering.specs.Number.{handle_overwrite};
ghost use Rattle.numbering.specs.View.{expr_of};
ghost use Rattle.lvn_simplify.specs.View.{known_of};
ghost use Rattle.lvn_values.specs.Table.{numbered_of, val_num_of};
ghost use Rattle.lvn_state.specs.View.{state_of, saved_of, itself, settled};
ghost use Rattle.lvn_state.specs.Room.{Low, room, Maps};

use arith::One;
use lvn_values::Values;
use numbering::{Constant, ValNum, Value};
use record::NameIx;

// What the maps hold for a name that has no number, and for a number that is not given. Maps of Options miss the bar that no row of the benchmark
// gets slower: they are twice as long and are filled whole at each block's start. Measured as plain Rust, a rewriting of 64 blocks by 256
// instructions takes 1.06 times the time with them, one of 16 by 16 1.33 times.
const NONE: u16 = 65535;

// env: the number of each of M names; homes: the home of each of N numbers; values: the value of each number; made: K.
#[derive(Clone, Copy)]
pub struct LvnState<const M: usize, const N: usize> {
    env: [u16; M],
    homes: [u16; N],
    values: Values<N>,
    made: u16,
}

impl<const M: usize, const N: usize> LvnState<M, N> {
    // Before the first block's `restart`. All of it is zeros, so that it is made in its place by one fill, and not copied there.
    pub fn new() -> Self
        ensures { result.made ≡ 0 }
    {
        LvnState {
            env: [0; M],
            homes: [0; N],
            values: Values::new(),
            made: 0,
        }
    }

    // At a block's start: the arguments have the first numbers and are their own homes; nothing is known of them.
    pub fn restart(&mut self, args: u16, k: u16)
        requires { (args ≤ M) × (args ≤ N) }
        ensures { state_of self.new ≡ start args k }
    {
        self.env.fill(NONE);
        self.homes.fill(NONE);
        self.values.clear();
        self.made = k;
        for i in 0..args {
            self.give(NameIx(i), Value::Unique);
        }
    }

    // How many numbers are given: the next number.
    pub fn count(&self) -> u16
        ensures { (result ≡ (state_of self.now).next) × (result ≤ N) }
    {
        self.values.count()
    }

    // K, how many names are made.
    pub fn made(&self) -> u16
        ensures { result ≡ self.now.made }
    {
        self.made
    }

    // The number of a name, where it has one.
    #[tactic(auto, unfolding(crate::specs::View::env_of))]
    pub fn number(&self, x: NameIx) -> Option<ValNum>
        ensures { (numbered_of result ≡ (state_of self.now).env x) × IfSome result (λ v. v.0 < 65535) }
    {
        match self.env.get(usize::from(x.0)) {
            Some(v) if *v != NONE => Some(ValNum(*v)),
            _ => None,
        }
    }

    // The number of a name that has one.
    pub fn number_of(&self, x: NameIx) -> ValNum
        ensures { (result ≡ number_of (state_of self.now) x) × (result.0 < 65535) }
    {
        self.number(x).unwrap_or(ValNum(0))
    }

    // The home of a number. One that is not given has 65535, the definitions' nobody: there every number has a home, and an Option would be
    // opened at each argument, whose number is always given.
    #[tactic(auto, unfolding(crate::specs::View::locs_of))]
    pub fn home(&self, v: ValNum) -> NameIx
        ensures { result ≡ (state_of self.now).locs v }
    {
        NameIx(self.homes.get(usize::from(v.0)).copied().unwrap_or(NONE))
    }

    // The constant of a number, where it is known.
    #[tactic(auto, unfolding(numbering::specs::State::known))]
    pub fn known(&self, v: ValNum) -> Option<Constant>
        ensures { known_of result ≡ known (state_of self.now) v }
    {
        self.values.known(v)
    }

    // The number of a value: an id's is its operand's, and one that is new each time has none.
    pub fn get_val_num(&self, v: Value) -> Option<ValNum>
        ensures { numbered_of result ≡ val_num_of (state_of self.now) (expr_of v) }
    {
        self.values.get_val_num(v)
    }

    // That a name is below M, and that there is room for a number, is asked by each method that puts them: the name is another at each call. A
    // full state is allowed; only these methods need room.

    // The next number: for x, whose home it is, with the value v.
    pub fn give(&mut self, x: NameIx, v: Value)
        requires { (x.0 < M) × ((self.old.values.count < N) × (self.old.values.count < 65535)) }
        ensures { state_of self.new ≡ new_number (state_of self.old) x (expr_of v) }
    {
        let k = self.values.count();
        self.values.push(v);
        self.homes[usize::from(k)] = x.0;
        self.env[usize::from(x.0)] = k;
    }

    // x takes the number v.
    #[tactic(auto, using(crate::proofs::Steps::take_view))]
    pub fn update_env(&mut self, x: NameIx, v: ValNum)
        requires { (x.0 < M) × (v.0 ≢ 65535) }
        ensures { state_of self.new ≡ update_env (state_of self.old) x v }
    {
        self.env[usize::from(x.0)] = v.0;
    }

    // An argument: where it has no number it gets the next one, of which nothing is known.
    pub fn see(&mut self, x: NameIx)
        requires { (x.0 < M) × ((self.old.values.count < N) × (self.old.values.count < 65535)) }
        ensures { state_of self.new ≡ see (state_of self.old) x }
    {
        if self.number(x).is_none() {
            self.give(x, Value::Unique);
        }
    }

    // Numbers arguments, left to right, where they have no number.
    pub fn gen_new_vals(&mut self, args: &[u16])
        requires { Low M (map nm args.now) × ((room M (state_of self.old) < N) × (room M (state_of self.old) < 65535)) }
        ensures { state_of self.new ≡ gen_new_vals (state_of self.old) (map nm args.now) }
    {
        for x in args {
            self.see(NameIx(*x));
        }
    }

    // Dest takes the number of the value v, which is handed back; where v has none, the next one, whose home is dest.
    pub fn number_dest(&mut self, dest: NameIx, v: Value) -> Option<ValNum>
        requires { (dest.0 < M) × ((self.old.values.count < N) × ((self.old.values.count < 65535) ×
            ((a : ValNum) → expr_of v ≡ some (one Id a) → a.0 ≢ 65535))) }
        ensures { (numbered_of result ≡ val_num_of (state_of self.old) (expr_of v)) ×
            (state_of self.new ≡ settled (state_of self.old) dest (expr_of v)) }
    {
        match self.get_val_num(v) {
            Some(u) => {
                self.update_env(dest, u);
                Some(u)
            }
            None => {
                self.give(dest, v);
                None
            }
        }
    }

    // Before dest is written: if it is the home of its present number, a made name becomes the home and K is raised, unless the
    // instruction reads exactly `x = id x`. The made name is handed back. n: how many names the input has.
    pub fn handle_overwrite(&mut self, n: u16, dest: NameIx, v: Value) -> Option<NameIx>
        requires { (dest.0 < M) × ((n + self.old.made < 65535) × Maps M N) }
        ensures { (i : Instr) → i.dest ≡ dest →
            saved_of self.new result i ≡ handle_overwrite n (state_of self.old) i (expr_of v) }
    {
        if self.writes_home(dest, v) {
            return None;
        }
        let num = self.number(dest)?;
        if self.home(num) != dest {
            return None;
        }
        let made = NameIx(n + self.made);
        self.homes[usize::from(num.0)] = made.0;
        self.made += 1;
        Some(made)
    }

    // Whether the instruction of a value is `x = id x`: an id of the number whose home is dest.
    pub fn writes_home(&self, dest: NameIx, v: Value) -> bool
        ensures { result ≡ itself (state_of self.now).locs dest (expr_of v) }
    {
        matches!(v, Value::One(One::Id, a) if self.home(a) == dest)
    }
}
