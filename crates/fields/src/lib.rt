// A line of text cut into fields at a separator.
#![tactic(auto)]

ghost use Rattle.std.specs.Prelude.{◌≡◌, ◌≤◌, ℕ, List, length, map};
ghost use Rattle.std.specs.Fn.{FnReturnsAt};
ghost use Rattle.fields.specs.Fields.{fields, EndsAt, Placed};

// Where the field ends that starts at a.
pub fn end(s: &[u8], a: usize, separator: u8) -> usize
    requires { a ≤ length s.now }
    ensures { EndsAt separator s.now a result }
{
    for i in a..s.len() {
        if s[i] == separator {
            return i;
        }
    }
    s.len()
}

// Reads the fields one by one, what `read` makes of each to its place while there are places, and tells how many there
// are.
pub fn read_each<T: Copy, F: Fn(&[u8]) -> T>(s: &[u8], separator: u8, v: &mut [T], read: F) -> usize
    requires { F.IsAlwaysCallable read }
    ensures value { result ≡ length (fields separator s.now) }
    ensures placed { (f : List ℕ → T) (d : T) → ((t : List ℕ) (x : T) → FnReturnsAt F.Fn read t x → x ≡ f t)
        → Placed d (map f (fields separator s.now)) v.old v.new }
{
    let mut n = 0;
    let mut a = 0;
    // (A `for` over `s.split(..)` was tried: what the check itself writes for that loop, `iterator-loop-field`, fails.)
    while a <= s.len() {
        let e = end(s, a, separator);
        let x = read(&s[a..e]);
        if n < v.len() {
            v[n] = x;
        }
        n += 1;
        a = e + 1;
    }
    n
}
