// The calls of a run, carried out.
ghost use Rattle.std.specs.Prelude.{◌≡◌, min, [], ◌∷◌, ◌++◌, length, take, drop};
ghost use Rattle.bench.specs.Runs.{Event, History};
ghost use Rattle.bench.specs.Served.{answered, served, answered_all, served_all};
ghost use Rattle.bench.specs.Held.{places_of};
ghost use Rattle.bench.specs.State.{held_of, memory_of, standing, Kept};
ghost use Rattle.bench.specs.Told.{Told, ToldAll};

use crate::runs::{Answer, Request};
use crate::state::Bench;
use loss::Loss;
use table::holder::Holder;

// The clauses `top`, `room` and `places` are written at each call: no invariant can say that a value stays.
impl<'a, P: Copy> Bench<'a, P> {
    // Makes one call.
    pub fn serve<L: Loss<Point = P>, H: Holder>(
        &mut self,
        holder: &mut H,
        request: &Request<P, L>,
    ) -> Answer
        ensures answer { result ≡ answered L.slope self.old.top (H.room holder.old) (record { clears = H.cleared; extends = H.extended }) (standing self.old (H.listed holder.old) (H.memory holder.old)) request.now }
        ensures after { standing self.new (H.listed holder.new) (H.memory holder.new) ≡ served L.slope self.old.top (H.room holder.old) (record { clears = H.cleared; extends = H.extended }) (standing self.old (H.listed holder.old) (H.memory holder.old)) request.now }
        ensures top { self.new.top ≡ self.old.top }
        ensures room { H.room holder.new ≡ H.room holder.old }
        ensures places { places_of (memory_of self.new) ≡ places_of (memory_of self.old) }
        ensures law { (h : History P) → Kept self.old (H.room holder.old) (H.listed holder.old) h → ((e : Event P) × Told L.cost request.now result e × Kept self.new (H.room holder.new) (H.listed holder.new) (e ∷ h)) }
    {
        match request {
            Request::Add(count, point) => self.add(*count, *point).into(),
            Request::Drop(count) => self.drop(*count).into(),
            Request::Lay(loss) => self.lay(loss, holder).into(),
            Request::Convert(count) => self.convert(holder, *count).into(),
        }
    }

    // Makes the calls in their order, as many as there are places for answers, and says how many.
    pub fn run<L: Loss<Point = P>, H: Holder>(
        &mut self,
        holder: &mut H,
        requests: &[Request<P, L>],
        answers: &mut [Answer],
    ) -> usize
        ensures count { result ≡ min (length requests.now) (length answers.old) }
        ensures answers { answers.new ≡ answered_all L.slope self.old.top (H.room holder.old) (record { clears = H.cleared; extends = H.extended }) (standing self.old (H.listed holder.old) (H.memory holder.old)) (take result requests.now) ++ drop result answers.old }
        ensures after { standing self.new (H.listed holder.new) (H.memory holder.new) ≡ served_all L.slope self.old.top (H.room holder.old) (record { clears = H.cleared; extends = H.extended }) (standing self.old (H.listed holder.old) (H.memory holder.old)) (take result requests.now) }
        ensures top { self.new.top ≡ self.old.top }
        ensures room { H.room holder.new ≡ H.room holder.old }
        ensures law { held_of self.old ≡ [] → H.listed holder.old ≡ [] → ((h : History P) × ToldAll L.cost (take result requests.now) (take result answers.new) h × Kept self.new (H.room holder.new) (H.listed holder.new) h) }
    {
        let n = requests.len().min(answers.len());
        // By an index: in a zip with `iter_mut` the proof did not close, since it knows no answer that was written.
        for (i, request) in requests[..n].iter().enumerate() {
            answers[i] = self.serve(holder, request);
        }
        n
    }
}
