// What holds of dependences, and of descriptors that list them.
ghost use Rattle.std.specs.Prelude.{◌≡◌, ◌≤◌, ◌<◌, ◌↔◌, ◌+◌, ℕ, Bool, List, length, true};
ghost use Rattle.mq_blocks.specs.Descriptor.{AreRising, Descriptor, IsSound};
ghost use Rattle.mq_blocks.specs.Journal.{Shown, is_among};
ghost use Rattle.mq_blocks.specs.declared.geometry.Geometry.{Geometry};
ghost use Rattle.mq_ledger.specs.History.{last, AreNumbered, IsAt};
ghost use Rattle.mq_ledger.specs.declared.tx.Tx.{Tx};
ghost use Rattle.mq_loose_order.specs.Dependence.{IsClosed, closure, depends_on, touched};
ghost use Rattle.mq_loose_order.specs.Form.{loose_form};
ghost use Rattle.mq_loose_order.specs.Standing.{AreAll, AreEarlier, AreFalling, AreInChains, AreStanding, standing};

/// A transaction depends, for each block that it writes or frees, on the last number above the base that
/// changed this block, and on nothing else. The numbers rise.
pub fn dependences_are_exact()
    ensures exact { (base : ℕ) (t : Tx) (ts : List Tx) (n : ℕ)
        → (is_among n (depends_on base t ts) ≡ true)
        ↔ ((x : ℕ) × (is_among x (touched t) ≡ true) × (last base ts x ≡ n) × (base < n)) }
    ensures rising { (base : ℕ) (t : Tx) (ts : List Tx)
        → AreNumbered base ts
        → AreRising (base + 1) (base + length ts + 1) (depends_on base t ts) }
{}

/// Of the transactions that pass a test, the closure is closed, and each closed set of such is in it.
pub fn the_greatest_closed_set()
    ensures closed { (has : Tx → List Tx → Bool) (base : ℕ) (h : List Tx)
        → AreNumbered base h
        → IsClosed base h (λ n. closure has base h n) }
    ensures greatest { (has : Tx → List Tx → Bool) (base : ℕ) (h : List Tx) (S : ℕ → Bool)
        → AreNumbered base h
        → IsClosed base h S
        → ((t : Tx) (ts : List Tx) → IsAt t ts h → S t.number ≡ true → has t ts ≡ true)
        → (n : ℕ) → S n ≡ true → n ≤ base + length h → closure has base h n ≡ true }
{}

/// Descriptors of the loose order are read as they were written, and as nothing else, whatever the
/// transactions depend on.
pub fn loose_form_is_sound()
    ensures { (deps : ℕ → List ℕ) → IsSound (loose_form deps) }
{}

/// Of the descriptors in all chains of an image, by falling numbers, those stand that are found by going upward: each
/// stands whose dependences are up to the base, or stand.
pub fn what_stands_is_found_upward()
    ensures { (deps : ℕ → List ℕ) (g : Geometry) (i : Shown) (chains : ℕ → List Descriptor)
        (ds : List Descriptor)
        → AreFalling i.base ds
        → AreInChains g chains ds
        → AreAll g chains ds
        → AreEarlier deps ds
        → AreStanding deps g i chains (standing deps i.base ds) }
{}
